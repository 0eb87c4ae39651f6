//! What is chosen at sites, and what a pick means.

ghost use Rattle.std.specs.Prelude.{◌≡◌, ◌%◌, ◌^◌};
ghost use Rattle.rr_syntax.specs.View.{texts};
ghost use Rattle.rr_choice.specs.Choices.{picked_form as picked_form_of, picked_name as picked_name_of};

/// Whether a site is changed, and how: by which value, by which of its forms, and by which of its
/// names. What a site does not have is 0.
#[derive(Clone, Copy, Debug, PartialEq, Eq)]
pub struct Pick {
    pub on: bool,
    pub value: u128,
    pub form: u8,
    pub name: u8,
}

/// A pick for each site of a list, in their order. A site past the last pick is not changed.
#[derive(Drop)]
pub struct Choice {
    pub picks: Vec<Pick>,
}

/// The low bits of a value, as many as the width.
pub fn cut(value: u128, width: u32) -> u128
    ensures { result ≡ value % 2 ^ width }
{
    if width < 128 {
        value % (1 << width)
    } else {
        value
    }
}

/// The form that a pick means: without names the form is 0.
pub fn picked_form(names: &[&str], pick: &Pick) -> u8
    ensures { result ≡ picked_form_of (texts names.now) pick.now.form }
{
    if names.len() == 0 { 0 } else { pick.form }
}

/// The name that a pick means: past the last it is the last.
pub fn picked_name<'a>(names: &[&'a str], pick: &Pick) -> &'a str
    ensures { result.now ≡ picked_name_of (texts names.now) pick.now.name }
{
    if names.len() == 0 {
        return "";
    }
    let place = (pick.name as usize).min(names.len() - 1);
    names[place]
}
