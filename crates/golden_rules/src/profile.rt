//! The profile `golden`.

ghost use Rattle.std.specs.Prelude.{◌≡◌, IfOk};
ghost use Rattle.golden_rules.specs.Profile.{golden};

use crate::lines::words_of;
use crate::read::is_known;
use crate::rules::Rules;
use crate::written::written_rule;
use element_table::Table;
use file_lines::cut_line;
use std::alloc::{AllocError, Global};

/// The lines of the profile.
const PROFILE: &str = "senior
ratio H C 0.2 3.1
ratio N C 0 1.3
ratio O C 0 1.2
ratio P C 0 0.3
ratio S C 0 0.8
ratio F C 0 1.5
ratio Cl C 0 0.8
ratio Br C 0 0.8
ratio Si C 0 0.5
group N 1 10 O 1 20 P 1 4 S 1 3
group N 3 11 O 3 22 P 3 6
group O 1 14 P 1 3 S 1 3
group P 1 3 S 1 3 N 1 4
group N 6 19 O 6 14 S 6 8
";

/// The profile `golden`: `senior`, nine ratios to carbon and five groups of N, O, P and S. A rule that names a symbol
/// which the table doesn't have is left out.
pub fn golden(alloc: Global, table: &Table) -> Result<Rules, AllocError>
    ensures { IfOk result (λ rules. rules ≡ golden table.now) }
{
    let mut rules = Vec::new(alloc);
    let mut left = PROFILE.as_bytes();
    while !left.is_empty() {
        let (line, rest) = cut_line(left);
        let words = words_of(alloc, line)?;
        if let Some(rule) = written_rule(alloc, &words)?
            && is_known(table, &rule)
        {
            rules.push(rule)?;
        }
        left = rest;
    }
    Ok(Rules::of(rules))
}
