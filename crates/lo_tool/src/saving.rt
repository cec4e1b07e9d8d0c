//! Saving an image: it is written to a new file beside the old one, brought to the disk, and put in its place.
ghost use Rattle.std.specs.Prelude.{◌≡◌, IsTrue, IfOk, OnErr, OnOk, string_bytes};
ghost use Rattle.lo_outside.specs.Faults.{HasCause};
ghost use Rattle.lo_tool.specs.Made.{LeavesImage, Saves, new_name};
ghost use Rattle.lo_tool.specs.Outside.{files_state};
ghost use Rattle.lo_tool.specs.Reading.{saved_of};

use crate::made::Saving;
use lo_base::NoMemory;
use lo_image::write_image;
use lo_outside::{Failed, Files};
use std::alloc::Global;

/// The name of the new file of an image. It is made before a file changes, since no memory is taken from then on.
pub fn new_name(alloc: Global, image: &str) -> Result<String, NoMemory>
    ensures { IfOk result (λ name. string_bytes name ≡ new_name image.now) }
{
    let mut name = String::new(alloc);
    name.push_str(image)?;
    name.push_str(".new")?;
    Ok(name)
}

/// Writes the image to the new file, and puts that in the place of the old one when it is on the disk.
pub fn save<F: Files>(saving: &Saving<'_>, name: &str, files: &mut F) -> Result<(), Failed>
    requires name { name.now ≡ new_name saving.now.image.now }
    ensures ok { IsTrue (F.tells files.old) → OnOk result (Saves (saved_of saving.now)
        (files_state F.Files files.old) (files_state F.Files files.new)) }
    ensures err { OnErr result (LeavesImage saving.now.image.now
        (files_state F.Files files.old) (files_state F.Files files.new)) }
    ensures cause { HasCause (F.faults files.old) (F.faults files.new) result }
    ensures tells { F.tells files.new ≡ F.tells files.old }
{
    write_image(&saving.opening, files, name)?;
    files.sync(name)?;
    files.rename(name, saving.image)
}
