//! The texts in which places are told.
ghost use Rattle.std.specs.Prelude.{◌≡◌, ◌≤◌, length, option_map, IfOk};
ghost use Rattle.std.specs.Option.{ForSome};
ghost use Rattle.doc_values.specs.Limits.{rules_limit, template_limit};
ghost use Rattle.report_text.specs.code.SeenTexts.{see_lined, see_lined_params, see_params, see_texts};

use crate::lined::Lined;
use std::alloc::{AllocError, Global};

/// The text of the parameters, and the number of the first node of the data tree that stands in it.
#[derive(Clone, Copy)]
pub struct Params<'t> {
    pub text: &'t str,
    pub first: u32,
}

/// The text of the rules, and those from which the data tree was read: the template, and behind it the parameters if there
/// are some.
#[derive(Clone, Copy)]
pub struct Texts<'t> {
    pub rules: &'t str,
    pub template: &'t str,
    pub params: Option<Params<'t>>,
}

/// The parameters, with the lines of their text.
#[derive(Drop)]
pub struct LinedParams<'t> {
    pub text: Lined<'t>,
    pub first: u32,
}

/// The texts in which places are told, with their lines.
#[derive(Drop)]
pub struct LinedTexts<'t> {
    pub rules: Lined<'t>,
    pub template: Lined<'t>,
    pub params: Option<LinedParams<'t>>,
}

impl<'t> LinedTexts<'t> {
    /// Finds the lines of each text.
    pub fn new(alloc: Global, texts: &Texts<'t>) -> Result<LinedTexts<'t>, AllocError>
        requires rules { length texts.now.rules.now ≤ rules_limit }
        requires template { length texts.now.template.now ≤ template_limit }
        requires params { ForSome texts.now.params (λ params. length params.text.now ≤ template_limit) }
        ensures { IfOk result (λ lined. see_lined lined ≡ see_texts texts.now) }
    {
        let rules = Lined::new(alloc, texts.rules)?;
        let template = Lined::new(alloc, texts.template)?;
        let params = lined_params(alloc, texts.params)?;
        Ok(LinedTexts {
            rules,
            template,
            params,
        })
    }
}

/// The parameters with the lines of their text, if there are some.
fn lined_params<'t>(
    alloc: Global,
    params: Option<Params<'t>>,
) -> Result<Option<LinedParams<'t>>, AllocError>
    requires { ForSome params (λ p. length p.text.now ≤ template_limit) }
    ensures { IfOk result (λ lined. option_map see_lined_params lined ≡ option_map see_params params.entry) }
{
    let Some(Params { text, first }) = params else {
        return Ok(None);
    };
    let text = Lined::new(alloc, text)?;
    Ok(Some(LinedParams { text, first }))
}
