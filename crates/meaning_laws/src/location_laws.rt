//! What holds of the meaning of rules, which is over locations: the unfoldings that are taken suffice, no other meaning obeys the
//! tables, and what fails has entries. The bodies do nothing but cite other laws; a law is kept by a contract.
ghost use Rattle.std.specs.Prelude.{◌≡◌, ◌≢◌, ◌↔◌, ◌≤◌, ℕ, ◌+◌, [], map};
ghost use Rattle.guard_syntax.specs.Syntax.{Body, Disjs, Rule};
ghost use Rattle.guard_syntax.specs.declared.row.Verdict.TheVariants.{Fail};
ghost use Rattle.rule_names.specs.Depths.{depth_body, depth_limit, depths_of};
ghost use Rattle.rule_names.specs.Pieces.{AreInOrder};
ghost use Rattle.rule_names.specs.WellNamed.{WellNamed};
ghost use Rattle.rule_meaning.specs.Fails.{Calls, body_fails, calls_by, loose_fails, rule_fails};
ghost use Rattle.rule_meaning.specs.Environments.{Environment, Top};
ghost use Rattle.rule_meaning.specs.Meaning.{Names, body_verdict, disj_verdicts};
ghost use Rattle.rule_meaning.specs.code.Fixpoint.{IsFixpoint};
ghost use Rattle.rule_meaning.specs.NameMeaning.{unfolded, rule_by, rule_verdict, loose_verdict};
ghost use Rattle.rule_meaning.specs.Locations.{World};
ghost use Rattle.rule_meaning.specs.Verdicts.{conjunction};
ghost use Rattle.meaning_laws.specs.code.Entries.{IsCallsFixpoint, loose_fails_by, loose_fails_with, rule_fails_by, rule_fails_with};
ghost use Rattle.meaning_laws.specs.code.Weights.{weight};

use rule_names::settled_depths;

/// The law that the unfoldings that are taken suffice over locations: by any further ones the rules of a file and the parts outside
/// them have the same verdicts and fail by the same entries, whatever functions answer; and a body fails by the same entries in an
/// environment, by any two numbers of unfoldings that its Depth there does not exceed.
pub fn unfoldings_suffice_over_locations()
    ensures rules { (world : World) (n : ℕ) → AreInOrder world.file → WellNamed world.file
        → map (rule_by world (unfolded world (n + depth_limit))) world.file.rules ≡ map (rule_verdict world) world.file.rules }
    ensures loose { (world : World) (n : ℕ) → AreInOrder world.file → WellNamed world.file
        → conjunction (disj_verdicts world (unfolded world (n + depth_limit)) Top world.file.loose) ≡ loose_verdict world world.file.loose }
    ensures rule_entries { (world : World) (n : ℕ) → AreInOrder world.file → WellNamed world.file
        → map (rule_fails_by world (n + depth_limit)) world.file.rules ≡ map (rule_fails world) world.file.rules }
    ensures loose_entries { (world : World) (n : ℕ) → AreInOrder world.file → WellNamed world.file
        → loose_fails_by world (n + depth_limit) world.file.loose ≡ loose_fails world world.file.loose }
    ensures entries { (world : World) (env : Environment) (part : Body) (n m : ℕ) → AreInOrder world.file → WellNamed world.file
        → depth_body world.file (depths_of world.file) part + weight world.file (depths_of world.file) env ≤ n
        → depth_body world.file (depths_of world.file) part + weight world.file (depths_of world.file) env ≤ m
        → body_fails world (unfolded world n) (calls_by world n) env part ≡ body_fails world (unfolded world m) (calls_by world m) env part }
{
    settled_depths();
}

/// The law that there is one meaning over locations: some meaning of names obeys the tables, and by any that does, the rules of
/// a file and the parts outside them have the same verdicts.
pub fn one_meaning_over_locations()
    ensures some { (world : World) → AreInOrder world.file → WellNamed world.file → (names : Names) × IsFixpoint world names }
    ensures rules { (world : World) (names : Names) → AreInOrder world.file → WellNamed world.file → IsFixpoint world names
        → map (rule_by world names) world.file.rules ≡ map (rule_verdict world) world.file.rules }
    ensures loose { (world : World) (names : Names) → AreInOrder world.file → WellNamed world.file → IsFixpoint world names
        → conjunction (disj_verdicts world names Top world.file.loose) ≡ loose_verdict world world.file.loose }
{
    settled_depths();
}

/// The law that there is one way to fail over locations: whatever meaning of names obeys the tables, some entries of calls do too, and by
/// any that do, the rules of a file and the parts outside them fail by the same entries.
pub fn one_failing_over_locations()
    ensures some { (world : World) (names : Names) → AreInOrder world.file → WellNamed world.file → IsFixpoint world names
        → (calls : Calls) × IsCallsFixpoint world names calls }
    ensures rules { (world : World) (names : Names) (calls : Calls) → AreInOrder world.file → WellNamed world.file
        → IsFixpoint world names → IsCallsFixpoint world names calls
        → map (rule_fails_with world names calls) world.file.rules ≡ map (rule_fails world) world.file.rules }
    ensures loose { (world : World) (names : Names) (calls : Calls) → AreInOrder world.file → WellNamed world.file
        → IsFixpoint world names → IsCallsFixpoint world names calls
        → loose_fails_with world names calls world.file.loose ≡ loose_fails world world.file.loose }
{
    settled_depths();
}

/// The law that what fails has entries: a rule that is FAIL has some, and a body, by any number of unfoldings in any environment,
/// and the parts outside rules have some exactly where they are FAIL, whatever functions answer.
pub fn failing_has_entries()
    ensures rules { (world : World) (rule : Rule) → rule_verdict world rule ≡ Fail → rule_fails world rule ≢ [] }
    ensures bodies { (world : World) (n : ℕ) (env : Environment) (part : Body)
        → (body_verdict world (unfolded world n) env part ≡ Fail) ↔ (body_fails world (unfolded world n) (calls_by world n) env part ≢ []) }
    ensures loose { (world : World) (loose : Disjs) → (loose_verdict world loose ≡ Fail) ↔ (loose_fails world loose ≢ []) }
{}
