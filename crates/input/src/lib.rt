// What the search is given beside the edges, read from an accepted sheet into arrays: the items' kinds, the predicates' selectivities, and
// each leaf's rows and number of columns.
#![tactic(auto)]

ghost use Rattle.std.specs.Prelude.{◌≡◌, map, ◌≤◌, length, take};
ghost use Rattle.definition.specs.Question.{Item, Predicate, open_question, leaf_count};
ghost use Rattle.definition.specs.Sheet.{question_of};
ghost use Rattle.definition.specs.Call.{leaves_of};
ghost use Rattle.input.specs.View.{leaves_in};

use arrayvec::ArrayVec;
use cost::Leaf;
use nodeset::{LEAF, PredicateId};
use sheet::Sheet;

// The kind of each item, and 0 behind them.
// kept: over the items alone; from_fn goes over all 127 places, in every call.
// kept: beside selectivities, since one function for both would take the reader and what it gives as parameters.
pub fn kinds(sheet: &Sheet<'_>) -> [u32; 127]
    ensures size { length result ≡ 127 }
    ensures kinds { take sheet.now.sections.items.count result ≡ map (λ (i : Item). i.kind) (question_of sheet.now.bytes.now).items }
{
    let mut kinds = [0; 127];
    for i in 0..sheet.sections.items.count {
        kinds[i] = sheet.item(i).kind;
    }
    kinds
}

// The selectivity of each predicate, and 0 behind them.
// kept: over the predicates alone, beside kinds, as said there.
pub fn selectivities(sheet: &Sheet<'_>) -> [u32; 256]
    ensures size { length result ≡ 256 }
    ensures selectivities { take sheet.now.sections.predicates.count result
        ≡ map (λ (p : Predicate). p.selectivity) (question_of sheet.now.bytes.now).predicates }
{
    let mut selectivities = [0; 256];
    for i in 0..sheet.sections.predicates.count {
        selectivities[i] = sheet.predicate(PredicateId(i as u32)).selectivity;
    }
    selectivities
}

// The leaves, in the items' order.
pub fn leaves(sheet: &Sheet<'_>) -> ArrayVec<Leaf, 64>
    requires { leaf_count (open_question (question_of sheet.now.bytes.now)).items ≤ 64 }
    ensures { leaves_in result.items ≡ leaves_of (question_of sheet.now.bytes.now).items }
{
    let mut leaves = ArrayVec::new();
    for item in sheet.items() {
        if item.kind == LEAF {
            leaves.push(Leaf {
                rows: item.rows,
                columns: item.range.count,
            });
        }
    }
    leaves
}
