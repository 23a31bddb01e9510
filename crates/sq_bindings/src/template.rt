//! Templates: texts with marks, each in the place of a part of the bound module.
ghost use Rattle.std.specs.Prelude.{◌≡◌, ◌++◌, OnOk, option_map};
ghost use Rattle.sq_bindings.specs.Template as spec;

use std::alloc::AllocError;

/// The texts in place of the marks of a template.
#[derive(Clone, Copy)]
pub(crate) struct Marks<'a> {
    /// `~`: the module's name, as SQL spells it.
    pub(crate) owner: &'a [u8],
    /// `%`: the procedure's.
    pub(crate) procedure: &'a [u8],
    /// `^`: the parameter's.
    pub(crate) parameter: &'a [u8],
    /// `!`: the module's name in the host's language.
    pub(crate) owner_name: &'a [u8],
    /// `@`: the procedure's there.
    pub(crate) procedure_name: &'a [u8],
    /// `$`: the parameter's there.
    pub(crate) parameter_name: &'a [u8],
    /// `?`: the picture of an exact number in COBOL.
    pub(crate) picture: &'a [u8],
    /// `` ` ``: how many digits a number has, or a text characters.
    pub(crate) size: &'a [u8],
    /// `|`: how many of a number's digits are after its point.
    pub(crate) scale: &'a [u8],
}

/// Finds the text in place of a byte, if it is a mark.
fn text_of_mark<'a>(marks: &Marks<'a>, byte: u8) -> Option<&'a [u8]>
    ensures { option_map (λ text. text.now) result ≡ spec.marked (spec.filling marks.now) byte }
{
    match byte {
        b'~' => Some(marks.owner),
        b'%' => Some(marks.procedure),
        b'^' => Some(marks.parameter),
        b'!' => Some(marks.owner_name),
        b'@' => Some(marks.procedure_name),
        b'$' => Some(marks.parameter_name),
        b'?' => Some(marks.picture),
        b'`' => Some(marks.size),
        b'|' => Some(marks.scale),
        _ => None,
    }
}

/// Adds the text in place of a byte of a template.
fn add_byte(text: &mut Vec<u8>, marks: &Marks<'_>, byte: u8) -> Result<(), AllocError>
    ensures { OnOk result (text.new.items ≡ text.old.items ++ spec.put (spec.filling marks.now) byte) }
{
    match text_of_mark(marks, byte) {
        Some(part) => text.extend_from_slice(part),
        None => Ok(text.push(byte)?),
    }
}

/// Adds a template with its marks filled in.
#[tactic(auto, using(crate::proofs::Added::added_next))]
pub(crate) fn add_filled(
    text: &mut Vec<u8>,
    marks: &Marks<'_>,
    template: &str,
) -> Result<(), AllocError>
    ensures { OnOk result
        (text.new.items ≡ text.old.items ++ spec.filled (spec.filling marks.now) template.now) }
{
    for byte in template.as_bytes() {
        add_byte(text, marks, *byte)?;
    }
    Ok(())
}
