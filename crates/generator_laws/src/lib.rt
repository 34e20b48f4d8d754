//! What holds of the rules that are generated from a template: their text is a rule file, and each is PASS over the template.
//! Calls that do nothing, whose contracts are the laws.
#![tactic(auto)]

ghost use Rattle.std.specs.Prelude.{◌≡◌, ◌<◌, ◌≤◌, ◌^◌, ◌∷◌, [], ℕ, List, None, length, true};
ghost use Rattle.std.specs.List.{AllByRecursion, list_any};
ghost use Rattle.std.specs.Str.{bytes_eq};
ghost use Rattle.guard_syntax.specs.declared.row.Verdict.TheVariants.{Pass};
ghost use Rattle.doc_values.specs.Limits.{rules_limit};
ghost use Rattle.doc_values.specs.Tree.{Forest, IsTree, size};
ghost use Rattle.guard_lexer.specs.Lexes.{IsTokenList};
ghost use Rattle.guard_lexer.specs.declared.token.Token.{Token};
ghost use Rattle.guard_syntax.specs.Syntax.{File};
ghost use Rattle.guard_parser.specs.File.{IsSpelledBy, Rules};
ghost use Rattle.literal_parser.specs.Lexemes.{Lexeme, lexemes};
ghost use Rattle.json_reader.specs.Json.{AreInRange};
ghost use Rattle.generator_laws.specs.code.GeneratedSyntax.{Places, file_of_rules, generated_file, type_rule};
ghost use Rattle.generator_laws.specs.code.Standing.{AreRead, Begin, Stands, behind_rules, first_of_site, places_of, rules_firsts};
ghost use Rattle.generator_laws.specs.code.RuleNames.{IsNamed};
ghost use Rattle.rule_generator.specs.GeneratedRules.{TypeRule, elements, generated, has_keys, rule_of, rules_of, types_of};
ghost use Rattle.rule_generator.specs.code.GeneratedPieces.{HaveSpellings, generated_pieces, rules_pieces};
ghost use Rattle.rule_spelling.specs.code.Pieces.{tokens_from};
ghost use Rattle.rule_meaning.specs.Locations.{World};
ghost use Rattle.rule_meaning.specs.NameMeaning.{rule_verdict};
ghost use Rattle.rule_names.specs.Pieces.{AreInOrder};
ghost use Rattle.rule_names.specs.WellNamed.{WellNamed, single_fault};

/// The law that a generated rule is PASS over the template that it is generated from, in every file in which its variable
/// and its literals are what the rule says: for each type among those of the elements for which a key is kept, whatever
/// functions answer. The call itself does nothing.
pub fn generated_rule_passes()
    ensures { (world : World) (places : Places) (let_site n number : ℕ) (type : List ℕ) → 0 < size world.template
        → list_any (bytes_eq type) (types_of (elements world.template)) ≡ true → has_keys (rule_of (elements world.template) type) ≡ true
        → IsNamed places world.file let_site n (rule_of (elements world.template) type)
        → rule_verdict world (type_rule places n number (rule_of (elements world.template) type)) ≡ Pass }
{}

/// The law that each rule of the file that is generated from a template is PASS over it, whatever functions answer, where rules
/// can be counted by 64 bits. The call itself does nothing.
pub fn generated_rules_pass()
    ensures { (world : World) (places : Places) → IsTree world.template → world.file ≡ generated_file places world.template
        → length (rules_of world.template) < 2 ^ 64 → AllByRecursion (λ rule. rule_verdict world rule ≡ Pass) world.file.rules }
{}

/// The law that the sites of the file of generated rules are the numbers from 0 on, in the order in which its parts begin. The
/// call itself does nothing.
pub fn generated_sites_in_order()
    ensures { (places : Places) (tree : Forest) → AreInOrder (generated_file places tree) }
{}

/// The law that no single name of the file of generated rules is wrong: none is given twice where one may not be, and each
/// variable that is used is there. The call itself does nothing.
pub fn generated_names_right()
    ensures { (places : Places) (tree : Forest) → length (rules_of tree) < 2 ^ 64 → single_fault (generated_file places tree) ≡ None }
{}

/// The law that the types, keys and values of generated rules can be written, where each number of the tree is in range, as in
/// the tree of a text of JSON or of YAML. The call itself does nothing.
pub fn generated_spellings()
    ensures { (tree : Forest) → AreInRange tree → HaveSpellings (rules_of tree) }
{}

/// The law that the names of the file of generated rules are as they must be: no single one is wrong, none reaches itself, and
/// no item is too deep. The call itself does nothing.
pub fn generated_file_well_named()
    ensures { (places : Places) (tree : Forest) → length (rules_of tree) < 2 ^ 64 → WellNamed (generated_file places tree) }
{}

/// The law that lexemes that are the pieces of generated rules spell their file, for the places of the lexemes: each type, key
/// and value can be written, and `first` tells at which lexeme each site begins. The call itself does nothing.
pub fn generated_rules_spelled()
    ensures { (s : ℕ → Lexeme) (first : ℕ → ℕ) (rules : List TypeRule) → length rules < 2 ^ 64 → AreRead rules → Begin first 0 (0 ∷ rules_firsts 0 rules) → Stands s 0 (rules_pieces [] 1 rules)
        → IsSpelledBy s (behind_rules 0 rules) (file_of_rules (places_of s first) rules) None }
{}

/// The law that the tokens of the generated text are a rule file by the grammar, the generated file, for their places, where
/// the template is one value. The call itself does nothing.
pub fn generated_file_spelled()
    ensures { (tree : Forest) → IsTree tree → length (rules_of tree) < 2 ^ 64
        → Rules (generated tree) (tokens_from 0 (generated_pieces tree))
        (generated_file (places_of (lexemes (generated tree) (tokens_from 0 (generated_pieces tree))) (first_of_site (rules_of tree))) tree) }
{}

/// The law of the generated text: where the template is one value, its numbers are in range, and the text is within the limit
/// of a rule file, it is a rule file by tokens, grammar and names, and each of its rules is PASS over the template, whatever
/// functions answer. The call itself does nothing.
pub fn generated_text_is_rule_file()
    ensures { (tree : Forest) → IsTree tree → AreInRange tree → length (generated tree) ≤ rules_limit
        → (tokens : List Token) × (file : File) × IsTokenList (generated tree) tokens × Rules (generated tree) tokens file × WellNamed file
        × ((world : World) → world.template ≡ tree → world.file ≡ file → AllByRecursion (λ rule. rule_verdict world rule ≡ Pass) file.rules) }
{}
