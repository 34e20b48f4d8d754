//! Laws of the text of evidence.
ghost use Rattle.std.specs.Prelude.{◌≡◌, ◌++◌, ℕ, List, []};
ghost use Rattle.evidence_lines.specs.Shapes.{IsInFormat};
ghost use Rattle.evidence_lines.specs.declared.line.Line.{Line};
ghost use Rattle.evidence_lines.specs.declared.version.Version.{Version};
ghost use Rattle.evidence_text.specs.Spelling.{line_text};
ghost use Rattle.evidence_text.specs.Text.{IsEvidence, IsFault};

/// The laws that no text of a line is a proper front of another's, that bytes are the evidence of one version and one list
/// of lines at most, and that other bytes have one fault. The body does nothing; a law is kept by a contract.
pub fn one_text()
    ensures no_front { (l m : Line) (rest : List ℕ) → IsInFormat l → IsInFormat m → line_text l ++ rest ≡ line_text m → (l ≡ m) × (rest ≡ []) }
    ensures one_list { (bytes : List ℕ) (v w : Version) (ls ms : List Line) → IsEvidence bytes v ls → IsEvidence bytes w ms → (v ≡ w) × (ls ≡ ms) }
    ensures one_fault { (bytes : List ℕ) (n m : ℕ) → IsFault bytes n → IsFault bytes m → n ≡ m }
    ensures never_both { (bytes : List ℕ) (v : Version) (ls : List Line) (n : ℕ) → IsEvidence bytes v ls → IsFault bytes n → ⊥ }
{}
