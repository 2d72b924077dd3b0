// Read By Type and Read By Group Type: one code over a form.
#![tactic(auto)]

pub mod inner;

// Which of the two: by the type of an attribute, or by that of a group.
#[derive(Clone, Copy)]
pub enum By {
    Attribute,
    Group,
}
