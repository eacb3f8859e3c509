//! The name of a picture's file, which gives the form of the picture.

use command_io::ProgramFault;

/// The form of a picture.
#[derive(Clone, Copy, PartialEq, Eq)]
pub enum PictureForm {
    Svg,
    /// A page with the picture and the table.
    Html,
}

/// Returns the form that the name of a picture's file requests by its ending.
pub fn picture_form(path: &str) -> Result<PictureForm, ProgramFault> {
    if path.ends_with(".svg") {
        return Ok(PictureForm::Svg);
    }
    if path.ends_with(".html") {
        return Ok(PictureForm::Html);
    }
    Err(ProgramFault::NoPicture)
}
