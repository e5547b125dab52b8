//! What the shell knows of options: which option a key means, which elements read it, which values it takes and what was meant
//! by another value, and which options stand for options of ELK.
#![tactic(auto)]

mod described;
mod given;
mod meaning;
mod near;
mod plain;
mod standing;
mod table;
mod values;

pub use described::{Description, Kind, Role};
pub use meaning::{PREFIX, is_spelling, prefix_in};
pub use near::nearest;
pub use plain::{number_in, plain_number, plain_text};
pub use standing::stand_ins;
pub use table::{Endings, MOST_PARTS, OptionTable};
pub use values::near_value;
