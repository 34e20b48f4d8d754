//! The calls of a rule file whose names are as they must be: its parts, their scopes and places, and what a use of a name
//! means.
use crate::worlds::file_of;
use rule_names::{Bind, Piece, RuleFile};

/// A file with a filter that gives a name, a block, a condition, a block over a type, a call of a function, a filter by
/// keys and a reference.
const RULES: &str = "let t = Resources[ id | Type == 'A::B' ]
rule c {
  %id == 'T'
  when %t !empty { %t { Type exists } }
  A::B { some this exists }
  N == count(%t)
  Resources[ keys == 'T' ] exists
  not d
}
rule d { M exists }
";

/// A file with a test outside rules, and a rule with a parameter.
const LOOSE: &str = "a exists rule p(x) { %x exists } rule r { p(a) }";

/// What a part is, and of a step its index.
fn told(piece: &Piece) -> (&'static str, usize) {
    match piece {
        Piece::File => ("file", 0),
        Piece::Let(_) => ("let", 0),
        Piece::Rule(_) => ("rule", 0),
        Piece::Body(_) => ("body", 0),
        Piece::Conds(_) => ("conditions", 0),
        Piece::Disj(_) => ("disjunction", 0),
        Piece::Part(_) => ("part", 0),
        Piece::Query(_) => ("query", 0),
        Piece::Step { query: _, index } => ("step", *index),
        Piece::Expr(_) => ("expression", 0),
    }
}

/// A site, its part, its place, and the site of its scope.
type Site = (u32, (&'static str, usize), u32, u32);

const SITES: &[Site] = &[
    (0, ("file", 0), 0, 0),
    (1, ("let", 0), 0, 0),
    (2, ("query", 0), 8, 0),
    (3, ("step", 0), 8, 0),
    (4, ("step", 1), 17, 0),
    (5, ("conditions", 0), 24, 4),
    (6, ("disjunction", 0), 24, 4),
    (7, ("part", 0), 24, 4),
    (9, ("step", 0), 24, 4),
    (10, ("expression", 0), 32, 4),
    (11, ("rule", 0), 41, 0),
    (12, ("body", 0), 48, 0),
    (13, ("disjunction", 0), 52, 12),
    (16, ("step", 0), 52, 12),
    (24, ("step", 0), 70, 12),
    (25, ("body", 0), 80, 12),
    (29, ("step", 0), 82, 25),
    (30, ("body", 0), 85, 25),
    (34, ("step", 0), 87, 30),
    (57, ("rule", 0), 192, 0),
    (62, ("step", 0), 201, 58),
];

/// Whether a site has its part, which is found there, its place and its scope.
fn is_site(file: &RuleFile, (site, part, at, home): &Site) -> bool {
    if file.raw().places.as_slice().len() <= *site as usize {
        return false;
    }
    let Some(found) = file.find(*site) else {
        return false;
    };
    told(&found) == *part
        && told(&file.piece(*site)) == *part
        && file.place(*site) == *at
        && file.home(*site) == *home
}

#[test]
fn each_site_has_its_part(rt: HostRuntime) {
    let file = file_of(rt.alloc(), RULES).expect(&rt, "a file");
    for site in SITES {
        assert!(rt; is_site(&file, site), "{}", site.0);
    }
    assert!(rt; file.raw().places.as_slice().len() == 63 && file.find(63).is_none());
}

/// A site, what the use of a variable there means, and the rule that is named there.
type Use = (u32, Option<Bind>, Option<u32>);

const USES: &[Use] = &[
    (3, None, None),
    (16, Some(Bind::Capture { up: 1, step: 4 }), None),
    (24, Some(Bind::Value { up: 1, site: 2 }), None),
    (29, Some(Bind::Value { up: 2, site: 2 }), None),
    (48, Some(Bind::Value { up: 1, site: 2 }), None),
    (56, None, Some(57)),
    (63, None, None),
];

const LOOSE_USES: &[Use] = &[
    (10, Some(Bind::Param { up: 0, index: 0 }), None),
    (14, None, Some(5)),
];

/// Whether names mean this in a file, whose rules are judged in this order.
fn means(file: &RuleFile, uses: &[Use], order: &[u32]) -> bool {
    for (site, bind, target) in uses {
        if file.bind(*site) != *bind || file.target(*site) != *target {
            return false;
        }
    }
    file.order() == order
}

/// Rules come behind those that they name, and parts outside rules last.
#[test]
fn each_use_has_its_meaning(rt: HostRuntime) {
    let file = file_of(rt.alloc(), RULES).expect(&rt, "a file");
    assert!(rt; means(&file, USES, &[57, 11]));
    let loose = file_of(rt.alloc(), LOOSE).expect(&rt, "a file");
    assert!(rt; means(&loose, LOOSE_USES, &[11, 0]));
}
