// The pump driver (R51): one table, lent to be stepped.
#![tactic(auto)]

ghost use Rattle.std.specs.Prelude.{◌≡◌};
ghost use Rattle.table.specs.Step.{step_of};
ghost use Rattle.driver.specs.Driven.{driven_of};

use table::{Acted, Refusal, Table};

// R51, R48: the table is stepped by value and kept, or left as it is where the step was refused.
pub fn drive(t: &mut Table) -> Result<Option<usize>, Refusal>
    ensures { (result ≡ (step_of t.old).answer) × (t.new ≡ driven_of t.old) }
{
    let s = t.step();
    if s.answer.is_ok() {
        *t = s.table;
    }
    s.answer
}

// R51: the owner of a table: lends it to `drive`, and hands back what it then holds with the answer.
#[tactic(auto, using(crate::proofs::Keeps::driven_is_stepped))]
pub fn driven(mut table: Table) -> Acted<Option<usize>>
    ensures { result ≡ step_of table }
{
    let answer = drive(&mut table);
    Acted { table, answer }
}
