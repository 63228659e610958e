// Admit (R42): ask's answer, and the table with the new line in it.
#![tactic(auto)]

mod place; // the table with the new line in it

ghost use Rattle.admit.specs.Admits.{Admits};

use table::{Acted, Request, Table};

// R42: ask's answer, and with a start the table that it leads to; R17: with a refusal the table as it came
pub fn admit(t: Table, q: Request) -> Acted<u64>
    ensures { Admits t q result }
{
    let answer = ask::ask(t, q);
    let table = match answer {
        Ok(start) => place::admitted(t, q, start),
        Err(_) => t,
    };
    Acted { table, answer }
}
