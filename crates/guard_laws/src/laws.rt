//! The laws. The bodies cite other laws and do nothing else; a law is kept by a contract.
ghost use Rattle.std.specs.Prelude.{◌≡◌, ◌≤◌, ◌⊎◌, ◌↔◌, ℕ, List, Option, Some, None, All, false, true, length, option_map};
ghost use Rattle.std.specs.List.{AllByRecursion};
ghost use Rattle.doc_values.specs.Limits.{evidence_limit};
ghost use Rattle.doc_values.specs.Places.{tree_at};
ghost use Rattle.doc_values.specs.Tree.{Forest, Label, Nil, Node};
ghost use Rattle.doc_values.specs.declared.kind.Kind.TheVariants as kind;
ghost use Rattle.evidence_lines.specs.Versioned.{Versioned};
ghost use Rattle.evidence_rules.specs.Follows.{Accepts};
ghost use Rattle.guard_drill.specs.DrillTexts.{template_text};
ghost use Rattle.guard_syntax.specs.Syntax.{File};
ghost use Rattle.guard_syntax.specs.declared.row.Verdict.TheVariants.{Pass};
ghost use Rattle.guard_testfile.specs.Cases.{Expected, TestCase};
ghost use Rattle.guard_testfile.specs.Texts.{verdict_under};
ghost use Rattle.guard_words.specs.Request.{AsksFor, check, drill, parse_tree, rulegen, test, validate};
ghost use Rattle.rule_meaning.specs.FunctionMeaning.{IsAnswering};
ghost use Rattle.rule_meaning.specs.Locations.{Answers, World};
ghost use Rattle.rule_meaning.specs.NameMeaning.{rule_verdict};
ghost use Rattle.rule_names.specs.WellNamed.{WellNamed};
ghost use Rattle.rule_printer.specs.RuleText.{rule_text};
ghost use Rattle.report_text.specs.RuleLines.{reported_names};
ghost use Rattle.report_text.specs.Texts.{Parameters};
ghost use Rattle.guard_ends.specs.Check.{accepted_text};
ghost use Rattle.guard_ends.specs.Drill.{drill_report, drill_rules};
ghost use Rattle.guard_ends.specs.End.{AreMisread, AreSameButEvidence, AreSameButPlace, IsBeside, IsYamlAmong, IsYamlOf, is_reported};
ghost use Rattle.guard_ends.specs.Inputs.{AreCases, AreGenerated, HasSyntax, IsProof, IsRuleFile, IsSyntax, IsTemplate, RefusesData, format_of};
ghost use Rattle.guard_ends.specs.Order.{AreRead, AreTold, ComesTo, Contents, EndOf, Ended, Ends, IsChecked, IsDataOf, IsJudged, IsJudgedBy, IsTested, Point, refused, written};
ghost use Rattle.guard_ends.specs.Report.{report};
ghost use Rattle.guard_ends.specs.Reported.{verdicts_of, world_over};
ghost use Rattle.guard_ends.specs.declared.ends.End.TheVariants as end_is;
ghost use Rattle.guard_ends.specs.declared.ends.Refusal.{Refusal};
ghost use Rattle.guard_ends.specs.declared.ends.Which.{Which};
ghost use Rattle.guard_ends.specs.declared.format.Format.{Format};

use evidence_text::one_text;
use evidence_truth::lines_true;
use generator_laws::generated_text_is_rule_file;
use guard_parser::{one_syntax, sites_in_order};
use guard_testfile::one_answer;
use json_reader::{one_refusal, one_tree, refused_apart};
use query_steps::one_answer_over_locations;
use std::str;

/// The law that a call has one end: where the words ask for files whose contents are told, two ends that the definition gives
/// are equal. A clause for each command. Where a file is read as YAML and is no document, there may be several places that show
/// it, and so ends that differ in that place alone. With `--evidence` two ends are alike but for the evidence, of which there may
/// be more than one. The body does nothing; a law is kept by a contract.
pub fn only_end(rules: &[u8], template: &[u8], params: &[u8], evidence: &[u8])
    ensures validated { (words : List (List ℕ)) (told : Contents) (r t : List ℕ) (q : Option (List ℕ)) (e other : Ended)
        → AsksFor words (validate r t q false) → told r ≡ Some rules.now → told t ≡ Some template.now → AreTold told q params.now
        → EndOf words told e → EndOf words told other → AreSameButPlace (IsYamlAmong told t q) e other }
    ensures evidenced { (words : List (List ℕ)) (told : Contents) (r t : List ℕ) (q : Option (List ℕ)) (e other : Ended)
        → AsksFor words (validate r t q true) → told r ≡ Some rules.now → told t ≡ Some template.now → AreTold told q params.now
        → EndOf words told e → EndOf words told other → AreSameButEvidence e other ⊎ AreMisread (IsYamlAmong told t q) e other }
    ensures checked { (words : List (List ℕ)) (told : Contents) (r t : List ℕ) (q : Option (List ℕ)) (p : List ℕ) (e other : Ended)
        → AsksFor words (check r t q p) → told r ≡ Some rules.now → told t ≡ Some template.now → AreTold told q params.now
        → told p ≡ Some evidence.now → EndOf words told e → EndOf words told other → AreSameButPlace (IsYamlAmong told t q) e other }
    ensures tested { (words : List (List ℕ)) (told : Contents) (r s : List ℕ) (e other : Ended)
        → AsksFor words (test r s) → told r ≡ Some rules.now → told s ≡ Some template.now
        → EndOf words told e → EndOf words told other → AreSameButPlace (IsYamlOf Which.Tests told s) e other }
    ensures generated { (words : List (List ℕ)) (told : Contents) (t : List ℕ) (e other : Ended)
        → AsksFor words (rulegen t) → told t ≡ Some template.now → EndOf words told e
        → EndOf words told other → AreSameButPlace (IsYamlOf Which.Template told t) e other }
    ensures printed { (words : List (List ℕ)) (told : Contents) (r : List ℕ) (e other : Ended)
        → AsksFor words (parse_tree r) → told r ≡ Some rules.now → EndOf words told e → EndOf words told other → e ≡ other }
{
    one_syntax();
    only_template(template);
    only_template(params);
    one_text();
    one_answer();
}

/// The law that the texts of a drill are read: its rules are a rule file, and its template is JSON, a map, for each count that
/// words can tell.
pub fn drill_is_read()
    ensures rules { (rules : File) × IsRuleFile drill_rules rules }
    ensures template { (count : ℕ) → count ≤ 100000
        → (root : Label) × (kids : Forest) × (root.kind ≡ kind.Map) × IsTemplate Format.Json (template_text count) (Node root kids Nil) }
{}

/// The law that a drill is judged, whatever the files hold: it comes to nothing but an end, and that is Passed or Failed, as its
/// template is judged by its rules; so it is never refused.
pub fn drill_is_judged()
    ensures ends { (words : List (List ℕ)) (told : Contents) (count : ℕ) (e : Ended)
        → AsksFor words (drill count) → EndOf words told e → (e.how ≡ end_is.Passed) ⊎ (e.how ≡ end_is.Failed) }
    ensures judged { (words : List (List ℕ)) (told : Contents) (count : ℕ) (rules : File) (tree : Forest) (e : Ended)
        → AsksFor words (drill count) → IsRuleFile drill_rules rules → IsTemplate Format.Json (template_text count) tree
        → EndOf words told e
        → IsJudged (drill_report count) (record { rules = rules; tree = tree; texts = record { rules = drill_rules; template = template_text count; params = None } }) e }
    ensures points { (words : List (List ℕ)) (told : Contents) (count : ℕ) (p : Point)
        → AsksFor words (drill count) → ComesTo words told p → (e : Ended) × (p ≡ Ends e) }
{
    one_syntax();
}

/// The law that a drill has one end, and no other, whatever the files hold.
pub fn only_drill()
    ensures some { (words : List (List ℕ)) (told : Contents) (count : ℕ) → AsksFor words (drill count) → (e : Ended) × EndOf words told e }
    ensures one { (words : List (List ℕ)) (told : Contents) (count : ℕ) (e other : Ended)
        → AsksFor words (drill count) → EndOf words told e → EndOf words told other → e ≡ other }
{
    one_syntax();
    one_answer_over_locations();
}

/// The law that `--evidence` changes nothing but where the report goes: each end of a call with it stands beside an end of the call
/// without it, over the same files.
pub fn evidence_is_beside()
    ensures { (words plain_words : List (List ℕ)) (told : Contents) (r t : List ℕ) (q : Option (List ℕ)) (e : Ended)
        → AsksFor words (validate r t q true) → AsksFor plain_words (validate r t q false) → EndOf words told e
        → (plain : Ended) × EndOf plain_words told plain × IsBeside plain e }
{}

/// The law that what is written as evidence is accepted: where a call with `--evidence` ends with a report, and a check of files with
/// the same rules, the same template and the same parameters, in the same formats, or without parameters in both, has as evidence what
/// out took, which is no longer than evidence may be, then each end of the check is Accepted.
pub fn written_is_accepted(rules: &[u8], template: &[u8], params: &[u8], evidence: &[u8])
    ensures { (words check_words : List (List ℕ)) (told told_later : Contents) (r t : List ℕ) (q : Option (List ℕ)) (s u : List ℕ)
        (v : Option (List ℕ)) (p : List ℕ) (e other : Ended)
        → AsksFor words (validate r t q true) → AsksFor check_words (check s u v p) → format_of u ≡ format_of t
        → option_map format_of v ≡ option_map format_of q
        → told r ≡ Some rules.now → told t ≡ Some template.now → AreTold told q params.now
        → told_later s ≡ Some rules.now → told_later u ≡ Some template.now → AreTold told_later v params.now
        → told_later p ≡ Some evidence.now
        → EndOf words told e → is_reported e.how ≡ true → e.out ≡ evidence.now → length evidence.now ≤ evidence_limit
        → EndOf check_words told_later other → other.how ≡ end_is.Accepted }
{
    following_is_accepted(rules, template, params, evidence);
}

/// The law of completeness: where the words ask for `validate` of two files, or of three with parameters, whose contents are told, and
/// these are a rule file whose patterns can all be read, a template, and parameters that can stand behind its entries, each end that
/// the definition gives is one of the data tree that was judged.
pub fn accepted_is_judged(rules: &[u8], template: &[u8], params: &[u8])
    ensures plain { (words : List (List ℕ)) (told : Contents) (r t : List ℕ) (q : Option (List ℕ)) (file : File) (tree data_tree : Forest)
        (read : Option Parameters) (e : Ended)
        → AsksFor words (validate r t q false) → told r ≡ Some rules.now → told t ≡ Some template.now → AreTold told q params.now
        → IsRuleFile rules.now file → IsTemplate (format_of t) template.now tree → IsDataOf tree q params.now data_tree read → AreRead file
        → EndOf words told e
        → IsJudged report (record { rules = file; tree = data_tree; texts = record { rules = rules.now; template = template.now; params = read } }) e }
    ensures evidenced { (words : List (List ℕ)) (told : Contents) (r t : List ℕ) (q : Option (List ℕ)) (file : File) (tree data_tree : Forest)
        (read : Option Parameters) (e : Ended)
        → AsksFor words (validate r t q true) → told r ≡ Some rules.now → told t ≡ Some template.now → AreTold told q params.now
        → IsRuleFile rules.now file → IsTemplate (format_of t) template.now tree → IsDataOf tree q params.now data_tree read → AreRead file
        → EndOf words told e
        → IsJudgedBy report (record { rules = file; tree = data_tree; texts = record { rules = rules.now; template = template.now; params = read } }) e }
{
    one_syntax();
    only_template(template);
    only_template(params);
}

/// The law of completeness for a check: where, besides, evidence is asked for, whose content is told, and that is evidence,
/// each end that the definition gives is one of the evidence that was judged: it is accepted or rejected.
pub fn accepted_is_checked(rules: &[u8], template: &[u8], params: &[u8], evidence: &[u8])
    ensures { (words : List (List ℕ)) (told : Contents) (r t : List ℕ) (q : Option (List ℕ)) (p : List ℕ) (file : File)
        (tree data_tree : Forest) (read : Option Parameters) (lines : Versioned) (e : Ended)
        → AsksFor words (check r t q p) → told r ≡ Some rules.now → told t ≡ Some template.now → AreTold told q params.now
        → told p ≡ Some evidence.now
        → IsRuleFile rules.now file → IsTemplate (format_of t) template.now tree → IsDataOf tree q params.now data_tree read → AreRead file
        → IsProof evidence.now lines → EndOf words told e → IsChecked file data_tree lines e }
{
    one_syntax();
    only_template(template);
    only_template(params);
    one_text();
}

/// The law of completeness for tests: where the words ask for `test` of two files, whose contents are told, and these are a rule
/// file whose patterns can all be read, and a tests file for it, each end that the definition gives is one of the cases that were
/// judged.
pub fn accepted_is_tested(rules: &[u8], tests: &[u8])
    ensures { (words : List (List ℕ)) (told : Contents) (r s : List ℕ) (file : File) (tree : Forest) (cases : List TestCase) (e : Ended)
        → AsksFor words (test r s) → told r ≡ Some rules.now → told s ≡ Some tests.now
        → IsRuleFile rules.now file → IsTemplate (format_of s) tests.now tree → AreCases file tree cases → AreRead file
        → EndOf words told e → IsTested file tree cases e }
{
    one_syntax();
    only_template(tests);
    one_answer();
}

/// The law of completeness for rules that are generated: where the words ask for `rulegen` of a file, whose content is told and is a
/// template, and the rules that are generated of it are no longer than rules may be, each end that the definition gives is that of
/// their text written.
pub fn accepted_is_generated(template: &[u8])
    ensures { (words : List (List ℕ)) (told : Contents) (t : List ℕ) (tree : Forest) (text : List ℕ) (e : Ended)
        → AsksFor words (rulegen t) → told t ≡ Some template.now → IsTemplate (format_of t) template.now tree → AreGenerated tree text
        → EndOf words told e → e ≡ written text }
{
    only_template(template);
}

/// The law that rules which are generated are met: where they are those of a template, and no longer than rules may be, their text is
/// a rule file by its tokens, its grammar and its names, and each of its rules is PASS over the template, whatever functions answer.
pub fn generated_are_met()
    ensures { (f : Format) (bytes : List ℕ) (tree : Forest) (text : List ℕ) → IsTemplate f bytes tree → AreGenerated tree text
        → (rules : File) × IsSyntax text rules × WellNamed rules × ((world : World) → world.template ≡ tree → world.file ≡ rules
        → AllByRecursion (λ rule. rule_verdict world rule ≡ Pass) rules.rules) }
{
    generated_text_is_rule_file();
}

/// The law of completeness for rules that are printed: where the words ask for `parse-tree` of a file, whose content is told and has a
/// syntax, each end that the definition gives is that of the canonical text of the syntax written.
pub fn accepted_is_printed(rules: &[u8])
    ensures { (words : List (List ℕ)) (told : Contents) (r : List ℕ) (file : File) (e : Ended)
        → AsksFor words (parse_tree r) → told r ≡ Some rules.now → HasSyntax rules.now file
        → EndOf words told e → e ≡ written (rule_text file) }
{
    one_syntax();
}

/// The law that tests pass exactly where they are met: cases that were judged end as Passed exactly where each verdict that a case
/// expects is that of its rule over the input, by the meaning of rules; else they end as Failed.
pub fn tests_are_met()
    ensures passed { (f : Format) (bytes : List ℕ) (rules : File) (tree : Forest) (cases : List TestCase) (e : Ended)
        → IsTemplate f bytes tree → AreCases rules tree cases → IsTested rules tree cases e
        → (e.how ≡ end_is.Passed) ↔ All (λ (case : TestCase). (answers : Answers) → IsAnswering (world_over rules (tree_at tree case.input) answers)
        → All (λ (x : Expected). verdict_under (reported_names rules) (verdicts_of (world_over rules (tree_at tree case.input) answers)) x.rule
        ≡ Some x.verdict) case.expected) cases }
    ensures ends { (rules : File) (tree : Forest) (cases : List TestCase) (e : Ended)
        → IsTested rules tree cases e → (e.how ≡ end_is.Passed) ⊎ (e.how ≡ end_is.Failed) }
{}

/// The law that evidence which is to be accepted is accepted, and no other: where, besides, each line follows and each rule has
/// the line of its verdict, each end that the definition gives is Accepted, and only there.
pub fn following_is_accepted(rules: &[u8], template: &[u8], params: &[u8], evidence: &[u8])
    ensures accepted { (words : List (List ℕ)) (told : Contents) (r t : List ℕ) (q : Option (List ℕ)) (p : List ℕ) (file : File)
        (tree data_tree : Forest) (read : Option Parameters) (lines : Versioned) (e : Ended)
        → AsksFor words (check r t q p) → told r ≡ Some rules.now → told t ≡ Some template.now → AreTold told q params.now
        → told p ≡ Some evidence.now
        → IsRuleFile rules.now file → IsTemplate (format_of t) template.now tree → IsDataOf tree q params.now data_tree read → AreRead file
        → IsProof evidence.now lines → Accepts lines.version data_tree file lines.lines
        → EndOf words told e → e.how ≡ end_is.Accepted }
    ensures only { (words : List (List ℕ)) (told : Contents) (r t : List ℕ) (q : Option (List ℕ)) (p : List ℕ) (file : File)
        (tree data_tree : Forest) (read : Option Parameters) (lines : Versioned) (e : Ended)
        → AsksFor words (check r t q p) → told r ≡ Some rules.now → told t ≡ Some template.now → AreTold told q params.now
        → told p ≡ Some evidence.now
        → IsRuleFile rules.now file → IsTemplate (format_of t) template.now tree → IsDataOf tree q params.now data_tree read → AreRead file
        → IsProof evidence.now lines → EndOf words told e
        → e.how ≡ end_is.Accepted → Accepts lines.version data_tree file lines.lines }
{
    accepted_is_checked(rules, template, params, evidence);
}

/// The law that accepted evidence is true, whoever wrote it: for bytes that are a rule file, what out takes of it are the
/// verdicts of the rules by their meaning over the data, those that the report has.
pub fn accepted_is_true()
    ensures { (bytes : List ℕ) (rules : File) (evidence : Versioned) (template : Forest) (answers : Answers) (e : Ended)
        → IsRuleFile bytes rules → IsChecked rules template evidence e → e.how ≡ end_is.Accepted
        → IsAnswering (world_over rules template answers)
        → e.out ≡ accepted_text rules (verdicts_of (world_over rules template answers)) }
{
    lines_true();
    sites_in_order();
}

/// The law that a template, or parameters, have one tree or one refusal in each format, but for a place in YAML, and not both.
fn only_template(bytes: &[u8])
    ensures tree { (f : Format) (tree other : Forest) → IsTemplate f bytes.now tree → IsTemplate f bytes.now other → tree ≡ other }
    ensures refusal { (which : Which) (f : Format) (r other : Refusal) → RefusesData which f bytes.now r → RefusesData which f bytes.now other
        → AreSameButPlace (λ w read. (w ≡ which) × (read ≡ bytes.now) × (f ≡ Format.Yaml)) (refused bytes.now r) (refused bytes.now other) }
    ensures apart { (which : Which) (f : Format) (r : Refusal) (tree : Forest) → RefusesData which f bytes.now r → IsTemplate f bytes.now tree → ⊥ }
{
    match str::from_utf8(bytes) {
        Ok(text) => {
            one_tree(text);
            one_refusal(text);
            refused_apart(text);
        }
        Err(_) => {}
    }
}
