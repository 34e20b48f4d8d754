//! Values as entries show them.
ghost use Rattle.std.specs.Prelude.{◌≡◌, true, unwrap_or};
ghost use Rattle.std.specs.Option.{option_map_or};
ghost use Rattle.evidence_lines.specs.Lines.{line_of};
ghost use Rattle.evidence_lines.specs.declared.line.Line.{Line};
ghost use Rattle.rule_meaning.specs.Fails as fails;
ghost use Rattle.rule_meaning.specs.StoreModel.{StoreModel, is_known_ref};
ghost use Rattle.report_text.specs.code.SeenEntries.{IsShowable, see_shown};
ghost use Rattle.evidence_rules.specs.code.Judgement.{location_said};

use evidence_lines::LineList;
use guard_syntax::{Origin, Ref};
use report_text::Shown;

/// A value as it is shown: what a call made under the site of the call, which is that of the line that made it.
pub(crate) fn shown(lines: &LineList<'_>, value: Ref) -> Shown
    ensures seen { (known : StoreModel) → see_shown known result ≡ fails.OfValue (location_said known lines.now value) }
    ensures showable { (known : StoreModel) → is_known_ref known value ≡ true → IsShowable known result }
{
    match value.origin {
        Origin::Template => Shown::Value(value),
        Origin::Literal(_) => Shown::Value(value),
        Origin::Made { line, .. } => Shown::Made {
            call: site_of(lines, line),
            value,
        },
    }
}

/// The site of the line of a number; 0 where there is none.
fn site_of(lines: &LineList<'_>, number: u64) -> u32
    ensures { result ≡ option_map_or (λ (l : Line). unwrap_or l.site 0) (line_of lines.now number) 0 }
{
    match lines.place_at(number) {
        Some(place) => place.site.unwrap_or(0),
        None => 0,
    }
}
