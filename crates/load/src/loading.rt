//! From a text to a checked table.

ghost use Rattle.load.specs.Loading.{Loaded};

use crate::heads::{check_heads, find_result};
use crate::refusal::Refusal;
use crate::rows::{nodes_of, table_rows};
use crate::sizes::{check_count, count_operands};
use crate::uses::check_uses;
use syntax::parse;
use table::{Table, check_rows};

/// The checked table of a text.
pub fn load(text: &[u8]) -> Result<Table, Refusal>
    ensures { Loaded text.now result }
{
    let draft = parse(text)?;
    let equations = draft.kept();
    check_count(draft.excess)?;
    let count = count_operands(equations)?;
    check_heads(equations)?;
    let result = find_result(equations, draft.end)?;
    let nodes = nodes_of(equations, &draft.operands[..count]);
    let nodes = &nodes[..equations.len() + count];
    check_uses(equations, nodes)?;
    let rows = table_rows(equations, nodes);
    check_rows(&rows[..nodes.len()], result as u8).map_err(|_| Refusal::Ring)
}
