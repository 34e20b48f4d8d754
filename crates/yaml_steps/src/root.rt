//! Where the root of a document begins, or that there is none.
ghost use Rattle.std.specs.Prelude.{◌≡◌, ◌≤◌, length, [], false, true, IfOk};
ghost use Rattle.std.specs.Result.{IfErr};
ghost use Rattle.std.specs.Str.{IsCharBoundary};
ghost use Rattle.yaml_scalars.specs.code.Limits.{text_limit};
ghost use Rattle.doc_values.specs.Unfinished.{start};
ghost use Rattle.yaml_grammar.specs.Ahead.{ahead};
ghost use Rattle.yaml_grammar.specs.code.Rest.{Begins};
ghost use Rattle.yaml_grammar.specs.code.Twins.{FixesRoot};
ghost use Rattle.yaml_grammar.specs.code.Steps.{Gives, is_ending};

use doc_values::DocBuilder;
use yaml_grammar::{Position, Stage, Stop};
use yaml_nodes::ahead::look;
use yaml_nodes::node::take_null;
use yaml_nodes::sign::is_ending;

/// Where the root stands, or that there is none.
pub fn root(text: &str, at: usize, builder: &mut DocBuilder) -> Result<Position, Stop>
    requires small { length text.now ≤ text_limit }
    requires boundary { IsCharBoundary text.now at }
    requires fits { builder.old ≡ start }
    ensures gives { Gives text.now (Begins text.now at) 0 [] builder.new result }
    ensures fixes { FixesRoot text.now at builder.new result }
    ensures memory { IfErr result (λ e. e ≡ Stop.NoMemory) }
    ensures there { IfOk result (λ p. p.at ≡ at) }
    ensures going { is_ending (ahead text.now false at).token ≡ false → IfOk result (λ p. (p.stage ≡ Stage.Value) × (builder.new ≡ start)) }
    ensures ended { IfOk result (λ p. p.stage ≡ Stage.After → is_ending (ahead text.now false at).token ≡ true) }
{
    if is_ending(look(text, false, at).token) {
        return take_null(text.len(), at, builder);
    }
    Ok(Position {
        stage: Stage::Value,
        at,
    })
}
