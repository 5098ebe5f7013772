//! Assignments as a proof logs them: which values one gives, whether it stands beside its opposite, and the log of all that were solutions.
//!
//! A proof names a solution by literals. `value_table` looks up what they say of each variable of the file, `consistency` whether two of them
//! contradict each other; what is a solution is judged by the `kernel`. The `log` keeps all of them, `packed` at a bit a variable, and finds the best one.
#![tactic(auto)]

mod consistency;
mod log;
mod packed;
mod value_table;

pub use consistency::is_consistent;
pub use log::{SolutionLog, is_better};
pub use value_table::{all_values, table_of, values};
