// Elements that hold texts.
ghost use Rattle.std.specs.Prelude.{◌≡◌, ◌≢◌, ◌++◌, codes, IfOk, IfSome, OnOk};
ghost use Rattle.std.specs.List.{AllByRecursion};
ghost use Rattle.xml_spec.specs.Characters.{IsText, IsNoColonName};
ghost use Rattle.element_make.specs.Made.{alone, joined};
ghost use Rattle.assertion_model.specs.Assertion.{given_if_any, holding, all_holding};

use element_make::{Made, Ns};
use owned_values::{NoMemory, Text, Texts};
use std::alloc::Global;

/// An element of assertions that holds a text and no more.
pub(crate) fn holding(alloc: Global, local: &'static str, text: &str) -> Result<Made, NoMemory>
    requires name { IsNoColonName local.now }
    requires text { IsText text.now }
    ensures { IfOk result (λ made. alone made ≡ holding local.now text.now) }
{
    let mut made = Made::new(alloc, Ns::Saml, local);
    made.text(text)?;
    Ok(made)
}

/// Adds an element of this name for each text.
pub(crate) fn add_all_holding(
    alloc: Global,
    made: &mut Made,
    local: &'static str,
    texts: &Texts,
) -> Result<(), NoMemory>
    requires name { IsNoColonName local.now }
    requires texts { AllByRecursion IsText texts.now }
    ensures { OnOk result (made.new ≡ record made.old { kids = joined made.old.kids (all_holding local.now texts.now) }) }
{
    for i in 0..texts.len() {
        made.child(holding(alloc, local, texts.at(i).as_str())?)?;
    }
    Ok(())
}

/// Adds an attribute, where there is a value.
pub(crate) fn add_if_any(
    made: &mut Made,
    local: &'static str,
    value: &Option<Text>,
) -> Result<(), NoMemory>
    requires name { IsNoColonName local.now }
    requires no_declaration { local.now ≢ codes "xmlns" }
    requires anew { AllByRecursion (λ a. a.name ≢ local.now) made.old.attributes }
    requires value { IfSome value.now IsText }
    ensures { OnOk result (made.new ≡ record made.old { attributes = made.old.attributes ++ given_if_any local.now value.now }) }
{
    match value {
        Some(value) => made.attr(local, value.as_str()),
        None => Ok(()),
    }
}
