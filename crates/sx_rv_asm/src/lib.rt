//! An assembler of RV64IM: items with labels to code, each jump met by a near or a far form.
#![tactic(auto)]

mod assembly;
mod forms;
mod items;
mod labels;
mod laws;
mod no_memory;

pub use assembly::{assemble, is_short};
pub use items::{Data, Item};
pub use laws::{
    address_arrives, branch_arrives, code_is_short, code_lies, code_stands, forms_have_sizes,
    items_lie_in_parts, jump_arrives, labels_have_places,
};
pub use no_memory::NoMemory;
