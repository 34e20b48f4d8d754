//! Cells of names: which one the use of a name leads to, and what fills it.
ghost use Rattle.std.specs.Prelude.{◌≡◌, IfSome, Some, option_and_then, option_map, true};
ghost use Rattle.rule_names.specs.EnclosingScopes.{home_of};
ghost use Rattle.rule_names.specs.Pieces.{piece_at};
ghost use Rattle.rule_names.specs.code.Files.{file_of as seen};
ghost use Rattle.evidence_rules.specs.CitedLines.{body_of_rule, body_site};
ghost use Rattle.scope_frames.specs.code.Cells.{HasCell};
ghost use Rattle.scope_frames.specs.code.Frames.{AreEntered, IsPlain, StandsFor};
ghost use Rattle.scope_frames.specs.code.Scoping.{scope_at};

use crate::worlds::file_of;
use guard_syntax::{Origin, Part, Ref, Row};
use rule_names::{Piece, RuleFile};
use scope_frames::{Cell, Frames};
use std::alloc::Global;

/// A file with a let, a rule with a parameter, a let and a capture, and a call of it.
const CALLED: &str = "let t = a
rule p(x) {
  let u = d
  %x exists
  %u exists
  %t exists
  b[ k | c exists ] exists
  %k exists
}
p(e)
";

/// The site of the call, and those of the uses of the parameter, of the lets and of the capture.
const CALL: u32 = 36;

const PARAM: u32 = 12;

const INNER: u32 = 16;

const OUTER: u32 = 20;

const CAPTURE: u32 = 34;

/// The cells of these in the frame of the call, that of the outer let in the frame of the file: the parameter has the argument
/// of the call, the inner let its expression, the capture its filter.
const PARAM_CELL: Cell = Cell { frame: 1, slot: 37 };

const INNER_CELL: Cell = Cell { frame: 1, slot: 7 };

const OUTER_CELL: Cell = Cell { frame: 0, slot: 2 };

const CAPTURE_CELL: Cell = Cell { frame: 1, slot: 25 };

/// The cell of the inner let in another frame of the call.
const OTHER_CELL: Cell = Cell { frame: 2, slot: 7 };

/// The line that gives rows.
const LINE: u64 = 4;

/// The root of a template, and a value in it.
const ROOT: Ref = Ref {
    origin: Origin::Template,
    node: 0,
    key: false,
};

const VALUE: Ref = Ref {
    origin: Origin::Template,
    node: 1,
    key: false,
};

/// The scope that the call of a site enters, where it is one.
fn called_scope(file: &RuleFile, call: u32) -> Option<u32>
    ensures scope { IfSome result (λ scope. scope_at (seen file.now) call ≡ Some scope) }
    ensures plain { IfSome result (λ scope. IsPlain (seen file.now) call) }
{
    let Some(rule) = file.target(call) else {
        return None;
    };
    match file.find(call) {
        Some(Piece::Part(Part::Call { .. })) => rule_scope(file, rule),
        _ => None,
    }
}

/// The site of the body of the rule of a site.
fn rule_scope(file: &RuleFile, rule: u32) -> Option<u32>
    ensures { result ≡ option_map body_site (option_and_then body_of_rule (piece_at (seen file.now) rule)) }
{
    match file.find(rule) {
        Some(Piece::Rule(rule)) => Some(rule.body.site),
        _ => None,
    }
}

/// Whether a site stands in the scope of a frame, which is that of the file or of a call.
fn stands_in(frames: &Frames<'_>, frame: u64, site: u32) -> bool
    ensures { result ≡ true → StandsFor (seen frames.now.file.now) frames.now.entered.keys frame (home_of (seen frames.now.file.now) site) }
{
    if frames.file.raw().places.as_slice().len() <= site as usize {
        return false;
    }
    let Some(entered) = frames.entered.as_slice().get(frame as usize) else {
        return false;
    };
    match entered.parent {
        Some(_) => match called_scope(frames.file, entered.site) {
            Some(scope) => scope == frames.file.home(site),
            None => false,
        },
        None => frames.file.home(site) == 0,
    }
}

/// The frame of the file, the first of all.
fn started(alloc: Global, file: &RuleFile) -> Option<Frames<'_>>
    ensures { IfSome result (λ frames. AreEntered (seen frames.file.now) frames.entered.keys) }
{
    let mut frames = Frames::new(alloc, file);
    match frames.enter(None, 0, ROOT) {
        Ok(_) => Some(frames),
        Err(_) => None,
    }
}

/// The frame of the call in that of the file; None where it may not be entered, or there is no memory.
fn enter_called(frames: &mut Frames<'_>, current: Ref) -> Option<u64>
    requires { AreEntered (seen frames.old.file.now) frames.old.entered.keys }
    ensures { AreEntered (seen frames.new.file.now) frames.new.entered.keys }
{
    if !stands_in(frames, 0, CALL) {
        return None;
    }
    match called_scope(frames.file, CALL) {
        Some(_) => frames.enter(Some(0), CALL, current).ok(),
        None => None,
    }
}

/// The cell of the use of a name at a site, in the frame of the call; None where it is no such use.
fn cell_at(frames: &Frames<'_>, site: u32) -> Option<Cell>
    requires { AreEntered (seen frames.now.file.now) frames.now.entered.keys }
    ensures { IfSome result (HasCell (seen frames.now.file.now) frames.now.entered.keys) }
{
    if !stands_in(frames, 1, site) {
        return None;
    }
    match frames.file.bind(site) {
        Some(_) => Some(frames.lookup(1, site)),
        None => None,
    }
}

/// Fills the cell of the use of a name in the frame of the call with a row, and says whether it was empty.
fn fill_at(frames: &mut Frames<'_>, site: u32, row: Row) -> bool
    requires { AreEntered (seen frames.old.file.now) frames.old.entered.keys }
    ensures { AreEntered (seen frames.new.file.now) frames.new.entered.keys }
{
    let Some(cell) = cell_at(frames, site) else {
        return false;
    };
    match frames.rows(cell) {
        Some(_) => return false,
        None => {}
    }
    frames.fill(cell, LINE, &[row]).is_ok()
}

/// Whether a cell has the line and a row.
fn is_filled(frames: &Frames<'_>, cell: Cell, row: Row) -> bool {
    match frames.rows(cell) {
        Some((line, rows)) => line == LINE && rows == [row].as_slice(),
        None => false,
    }
}

/// The frame of the file has the number 0, that of the call 1.
#[test]
fn each_use_has_its_cell(rt: HostRuntime) {
    let file = file_of(rt.alloc(), CALLED).expect(&rt, "a file");
    let Some(mut frames) = started(rt.alloc(), &file) else {
        panic!(rt; "no frame")
    };
    assert!(rt; enter_called(&mut frames, ROOT) == Some(1));
    assert!(rt; cell_at(&frames, PARAM) == Some(PARAM_CELL));
    assert!(rt; cell_at(&frames, INNER) == Some(INNER_CELL));
    assert!(rt; cell_at(&frames, OUTER) == Some(OUTER_CELL));
    assert!(rt; cell_at(&frames, CAPTURE) == Some(CAPTURE_CELL));
}

/// What fills a cell stays when another is filled, and when a frame is entered, whose own cells are empty. The same
/// arguments give the same frame, and another value another one.
#[test]
fn a_cell_keeps_what_fills_it(rt: HostRuntime) {
    let file = file_of(rt.alloc(), CALLED).expect(&rt, "a file");
    let Some(mut frames) = started(rt.alloc(), &file) else {
        panic!(rt; "no frame")
    };
    assert!(rt; enter_called(&mut frames, ROOT) == Some(1));
    assert!(rt; frames.rows(INNER_CELL).is_none());
    assert!(rt; fill_at(&mut frames, INNER, Row::Found(VALUE)));
    assert!(rt; fill_at(&mut frames, PARAM, Row::Found(ROOT)));
    assert!(rt; enter_called(&mut frames, VALUE) == Some(2));
    assert!(rt; enter_called(&mut frames, ROOT) == Some(1));
    assert!(rt; is_filled(&frames, INNER_CELL, Row::Found(VALUE)));
    assert!(rt; is_filled(&frames, PARAM_CELL, Row::Found(ROOT)));
    assert!(rt; frames.rows(CAPTURE_CELL).is_none());
    assert!(rt; frames.rows(OTHER_CELL).is_none());
}
