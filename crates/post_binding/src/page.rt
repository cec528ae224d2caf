//! A page while it is written.
ghost use Rattle.std.specs.Prelude.{◌≡◌, ◌++◌, IfOk, OnOk, OnErr};
ghost use Rattle.post_binding.specs.Html.{escape};
ghost use Rattle.post_binding.specs.Pages.{head, tail, submitting_head};

use crate::escape::escape_html;
use owned_values::{Blob, NoMemory};
use std::alloc::Global;
use std::marker::Model;

// How a page begins and ends.
const HEAD: &str = "<!DOCTYPE html><html><body>";

const TAIL: &str = "</body></html>";

// How a page begins that submits its form as soon as it is shown.
const SUBMITTING_HEAD: &str = "<!DOCTYPE html><html><body onload=\"document.forms[0].submit()\">";

/// A page that is written from its head on. Its markup is the program's own: a `&'static str`. What users and peers give
/// goes through [`Page::text`] alone, which escapes it, so that none of it becomes markup.
///
/// ```
/// let mut page = Page::new(alloc)?;
/// page.markup("<p>")?;
/// page.text(name)?;
/// page.markup("</p>")?;
/// let bytes = page.finish()?;
/// ```
///
/// Contracts see the bytes so far. Where there is no memory, a page is as it was.
#[derive(Drop)]
pub struct Page {
    html: String,
}

impl Model for Page {
    ghost use Rattle.std.specs.Prelude.{List, ℕ};
    ghost use Rattle.std.specs.String.{string_bytes};

    ghost Value = { List ℕ };

    ghost view = { λ p. string_bytes p.html };
}

impl Page {
    /// A page with its head.
    pub fn new(alloc: Global) -> Result<Page, NoMemory>
        ensures { IfOk result (λ page. page ≡ head) }
    {
        let html = String::from_str(alloc, HEAD)?;
        Ok(Page { html })
    }

    /// A page with its head, which submits its first form as soon as it is shown.
    pub fn submitting(alloc: Global) -> Result<Page, NoMemory>
        ensures { IfOk result (λ page. page ≡ submitting_head) }
    {
        let html = String::from_str(alloc, SUBMITTING_HEAD)?;
        Ok(Page { html })
    }

    /// Puts markup at the end.
    pub fn markup(&mut self, markup: &'static str) -> Result<(), NoMemory>
        ensures ok { OnOk result (self.new ≡ self.old ++ markup.now) }
        ensures err { OnErr result (self.new ≡ self.old) }
    {
        self.html.push_str(markup)?;
        Ok(())
    }

    /// Puts a text at the end, escaped.
    pub fn text(&mut self, text: &str) -> Result<(), NoMemory>
        ensures ok { OnOk result (self.new ≡ self.old ++ escape text.now) }
        ensures err { OnErr result (self.new ≡ self.old) }
    {
        escape_html(text, &mut self.html)
    }

    /// The whole page, with its tail.
    pub fn finish(self) -> Result<Blob, NoMemory>
        ensures { IfOk result (λ whole. whole ≡ self ++ tail) }
    {
        let Page { mut html } = self;
        html.push_str(TAIL)?;
        Blob::of(*html.allocator(), html.as_bytes())
    }
}
