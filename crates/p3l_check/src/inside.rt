// The calls inside a module.

ghost use Rattle.std.specs.Prelude.{◌≡◌, Ok, Err, IfOk, IfErr};
ghost use Rattle.p3l_ast.specs.Tree.{inside_tree};
ghost use Rattle.p3l_check.specs.Inside.{calls_of, call_of, turning_of};

use p3l_ast::{Call, Fault, Inside, Pos, SourceRefusal};

/// No text spells such a module at this place.
fn unspelled(pos: Pos) -> SourceRefusal
    ensures { result ≡ SourceRefusal.At Fault.Expected pos }
{
    SourceRefusal::At {
        fault: Fault::Expected,
        pos,
    }
}

/// The calls of a pipe or a comp at this place.
pub fn calls_of(pos: Pos, inside: &Inside) -> Result<&[Call], SourceRefusal>
    ensures calls { IfOk result (λ calls. calls_of pos (inside_tree inside.now) ≡ Ok calls.now) }
    ensures refused { IfErr result (λ refusal. calls_of pos (inside_tree inside.now)
        ≡ Err refusal) }
{
    match inside {
        Inside::Calls(calls) => match calls.as_slice() {
            [] => Err(unspelled(pos)),
            calls => Ok(calls),
        },
        Inside::Body(_) | Inside::Turning(_, _) => Err(unspelled(pos)),
    }
}

/// The one call of a farm, a map or a reduce at this place.
pub fn call_of(pos: Pos, inside: &Inside) -> Result<&Call, SourceRefusal>
    ensures call { IfOk result (λ call. call_of pos (inside_tree inside.now) ≡ Ok call.now) }
    ensures refused { IfErr result (λ refusal. call_of pos (inside_tree inside.now) ≡ Err refusal) }
{
    match inside {
        Inside::Calls(calls) => match calls.as_slice() {
            [call] => Ok(call),
            _ => Err(unspelled(pos)),
        },
        Inside::Body(_) | Inside::Turning(_, _) => Err(unspelled(pos)),
    }
}

/// The body and the condition of a loop at this place.
pub fn turning_of(pos: Pos, inside: &Inside) -> Result<(&Call, &Call), SourceRefusal>
    ensures calls { IfOk result (λ pair. turning_of pos (inside_tree inside.now)
        ≡ Ok (pair.0.now, pair.1.now)) }
    ensures refused { IfErr result (λ refusal. turning_of pos (inside_tree inside.now)
        ≡ Err refusal) }
{
    match inside {
        Inside::Turning(body, condition) => Ok((body, condition)),
        Inside::Body(_) | Inside::Calls(_) => Err(unspelled(pos)),
    }
}
