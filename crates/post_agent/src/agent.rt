//! The user agent.
ghost use Rattle.std.specs.Prelude.{◌≡◌, IfOk, OnErr, Some};
ghost use Rattle.post_binding.specs.Form.{post_body};
ghost use Rattle.post_agent.specs.Agents as spec;
ghost use Rattle.post_agent.specs.Requests as requests;
ghost use Rattle.post_agent.specs.Reading as reading;
ghost use Rattle.post_agent.specs.Received.{Receives, what_of};
ghost use Rattle.post_agent.specs.Views.{text_view, answer_view};

use crate::answer::{Answer, answer_of};
use crate::laws::each_answer_has_one_reading;
use crate::page::page_of;
use crate::request::{get, login_form, post};
use crate::seen::{AutoForm, Location, LoginPage, Outgoing, Page, Seen, What};
use crate::site::{Site, place_of};
use owned_values::{NoMemory, Text, chars_if_any};
use post_binding::post_body;
use std::alloc::Global;
use std::marker::Model;

// The status of an answer that sends the user agent on (RFC 9110, 15.4.4).
pub(crate) const SEE_OTHER: u16 = 303;

/// What a user's browser keeps: a cookie for each node, the form of the last page that had one, the last login page,
/// and the last Location.
///
/// What it sends is a function of these and of what it is asked for. Sending changes nothing; an answer that is
/// received does ([`Agent::receive`]). Where there is no memory, an agent is as it was.
#[derive(Debug, Drop)]
pub struct Agent {
    alloc: Global,
    sp_cookie: Option<Text>,
    idp_cookie: Option<Text>,
    form: Option<AutoForm>,
    login: Option<LoginPage>,
    location: Option<Location>,
}

impl Model for Agent {
    ghost use Rattle.post_agent.specs.States as states;

    ghost Value = { states.State };

    ghost view = { λ a.
        states.kept a.sp_cookie a.idp_cookie a.form a.login a.location };
}

/// The request that posts a form.
fn posted(
    alloc: Global,
    cookie: Option<&str>,
    site: Site,
    path: &[u8],
    form: &AutoForm,
) -> Result<Outgoing, NoMemory>
    ensures { IfOk result (λ sent. sent ≡ record {
      site = site;
      bytes = requests.post site (text_view cookie.entry) path.now
          (post_body form.now.field form.now.message form.now.relay);
    }) }
{
    let body = post_body(
        alloc,
        form.field,
        form.message.as_slice(),
        chars_if_any(&form.relay),
    )?;
    let bytes = post(alloc, site, cookie, path, body.as_slice())?;
    Ok(Outgoing { site, bytes })
}

/// A copy of the text, where there is one.
fn copied(alloc: Global, text: Option<&str>) -> Result<Option<Text>, NoMemory>
    ensures { IfOk result (λ copy. copy ≡ text_view text.entry) }
{
    match text {
        Some(text) => Ok(Some(Text::of(alloc, text)?)),
        None => Ok(None),
    }
}

/// The page that an answer shows; none where it sends the agent on.
fn shown(alloc: Global, answer: Answer<'_>) -> Result<Option<Page>, NoMemory>
    ensures { IfOk result (λ page. page ≡ reading.shown (answer_view answer.entry)) }
{
    if answer.status == SEE_OTHER {
        return Ok(None);
    }
    let page = page_of(alloc, answer.status, answer.body)?;
    Ok(Some(page))
}

/// How a page is seen.
fn what_of(page: &Page) -> What
    ensures { result ≡ what_of page.now }
{
    match page {
        Page::Form(form) => What::Form(form.field),
        Page::Login(_) => What::Login,
        Page::End => What::End,
        Page::Code(code) => What::Code(*code),
        Page::Status => What::Status,
        Page::Other => What::Page,
    }
}

/// How an answer with this page is seen.
fn seen_of(status: u16, page: &Option<Page>) -> Seen
    ensures { result ≡ reading.seen_by status page.now }
{
    let what = match page {
        Some(page) => what_of(page),
        None => What::Moved,
    };
    Seen { status, what }
}

impl Agent {
    /// An agent that has seen nothing. It takes no memory.
    pub fn new(alloc: Global) -> Agent
        ensures { result ≡ spec.fresh }
    {
        Agent {
            alloc,
            sp_cookie: None,
            idp_cookie: None,
            form: None,
            login: None,
            location: None,
        }
    }

    /// The cookie that a node set.
    fn cookie(&self, site: Site) -> Option<&str>
        ensures { text_view result ≡ spec.cookie_at site self.now }
    {
        match site {
            Site::Sp => chars_if_any(&self.sp_cookie),
            Site::Idp => chars_if_any(&self.idp_cookie),
        }
    }

    /// A GET of this path of the service provider.
    pub fn visit(&self, path: &str) -> Result<Option<Outgoing>, NoMemory>
        ensures { IfOk result (λ sent. sent ≡ Some (spec.visited path.now self.now)) }
    {
        let site = Site::Sp;
        let bytes = get(self.alloc, site, self.cookie(site), path.as_bytes())?;
        Ok(Some(Outgoing { site, bytes }))
    }

    /// The form of the last page that had one, posted. `None`, exactly where no form was seen, or its URL is neither
    /// node's.
    pub fn submit(&self) -> Result<Option<Outgoing>, NoMemory>
        ensures { IfOk result (λ sent. sent ≡ spec.submitted self.now) }
    {
        let Some(form) = &self.form else {
            return Ok(None);
        };
        let Some((site, path)) = place_of(form.url.as_str().as_bytes()) else {
            return Ok(None);
        };
        let sent = posted(self.alloc, self.cookie(site), site, path, form)?;
        Ok(Some(sent))
    }

    /// The last login page, filled in and posted to the node that sent it. `None`, exactly where no login page was
    /// seen.
    pub fn login(&self, user: &str, password: &str) -> Result<Option<Outgoing>, NoMemory>
        ensures { IfOk result (λ sent. sent ≡ spec.logged_in user.now password.now self.now) }
    {
        let Some(page) = &self.login else {
            return Ok(None);
        };
        let site = page.site;
        let form = login_form(self.alloc, page.pending.as_str(), user, password)?;
        let bytes = post(
            self.alloc,
            site,
            self.cookie(site),
            b"/login",
            form.as_slice(),
        )?;
        Ok(Some(Outgoing { site, bytes }))
    }

    /// A GET of the last Location at the node that sent it. `None`, exactly where no Location was seen.
    pub fn follow(&self) -> Result<Option<Outgoing>, NoMemory>
        ensures { IfOk result (λ sent. sent ≡ spec.followed self.now) }
    {
        let Some(location) = &self.location else {
            return Ok(None);
        };
        let site = location.site;
        let path = location.path.as_str();
        let bytes = get(self.alloc, site, self.cookie(site), path.as_bytes())?;
        Ok(Some(Outgoing { site, bytes }))
    }

    /// A POST of an empty form to `/logout` of a node.
    pub fn leave(&self, site: Site) -> Result<Option<Outgoing>, NoMemory>
        ensures { IfOk result (λ sent. sent ≡ Some (spec.left site self.now)) }
    {
        let bytes = post(self.alloc, site, self.cookie(site), b"/logout", b"")?;
        Ok(Some(Outgoing { site, bytes }))
    }

    /// Keeps the cookie that a node set, where it set one.
    fn keep_cookie(&mut self, site: Site, cookie: Option<Text>)
        ensures { self.new ≡ spec.with_cookie site cookie self.old }
    {
        if cookie.is_some() {
            match site {
                Site::Sp => self.sp_cookie = cookie,
                Site::Idp => self.idp_cookie = cookie,
            }
        }
    }

    /// Keeps the Location that a node gave, where it gave one.
    fn keep_location(&mut self, site: Site, location: Option<Text>)
        ensures { self.new ≡ spec.with_location site location self.old }
    {
        if let Some(path) = location {
            self.location = Some(Location { site, path });
        }
    }

    /// Keeps what a page of a node is needed for.
    fn keep_page(&mut self, site: Site, page: Page)
        ensures { self.new ≡ spec.with_page site page self.old }
    {
        match page {
            Page::Form(form) => self.form = Some(form),
            Page::Login(pending) => self.login = Some(LoginPage { site, pending }),
            _ => {}
        }
    }

    /// What an answer of a node shows. Its cookie and its Location are kept; where it does not send the agent on, so is
    /// the form or the login page that its body is. Bytes that are no answer are seen as status 0 and a page, and
    /// change nothing.
    pub fn receive(&mut self, site: Site, answer: &[u8]) -> Result<Seen, NoMemory>
        ensures ok { IfOk result (λ seen. Receives site answer.now self.old seen self.new) }
        ensures err { OnErr result (self.new ≡ self.old) }
    {
        each_answer_has_one_reading();
        let Some(answer) = answer_of(answer) else {
            return Ok(Seen {
                status: 0,
                what: What::Page,
            });
        };
        let cookie = copied(self.alloc, answer.cookie)?;
        let location = copied(self.alloc, answer.location)?;
        let page = shown(self.alloc, answer)?;
        let seen = seen_of(answer.status, &page);
        self.keep_cookie(site, cookie);
        self.keep_location(site, location);
        if let Some(page) = page {
            self.keep_page(site, page);
        }
        Ok(seen)
    }
}
