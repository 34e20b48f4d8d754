//! Texts of syntaxes that are the same in all but places.
ghost use Rattle.std.specs.Prelude.{◌≡◌};
ghost use Rattle.guard_syntax.specs.Syntax.{File};
ghost use Rattle.rule_printer.specs.RuleText.{rule_text};
ghost use Rattle.printer_laws.specs.code.Unplaced.{AreSameButPlaces};

/// Syntaxes that are the same in all but places have the same canonical text. The call itself does nothing.
pub fn same_text()
    ensures { (f g : File) → AreSameButPlaces f g → rule_text f ≡ rule_text g }
{}
