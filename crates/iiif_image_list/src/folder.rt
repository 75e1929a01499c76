//! Images that are named by the files of a folder.

ghost use Rattle.std.specs.Prelude.{◌≡◌, ◌≢◌, ◌⊎◌, ◌++◌, ℕ, List, IfNone, IfSome, true, false};
ghost use Rattle.iiif_image_list.specs.Folders.{EndsInNone, IsNameOf, is_hidden};

/// An image of a folder: its name, and the path of its file.
#[derive(Drop)]
pub struct FolderImage {
    pub name: String,
    pub path: String,
}

/// Whether a file is hidden, as those are that a program keeps beside others: its name begins with a dot.
fn is_hidden(file: &str) -> bool
    ensures { result ≡ is_hidden file.now }
{
    let bytes = file.as_bytes();
    !bytes.is_empty() && bytes[0] == b'.'
}

/// Returns the part of a file's name in front of an ending, where the name has it.
fn without<'a>(file: &'a str, ending: &str) -> Option<&'a str>
    ensures some { IfSome result (λ name. file.now ≡ name.now ++ ending.now) }
    ensures none { IfNone result ((front : List ℕ) → file.now ≢ front ++ ending.now) }
{
    file.strip_suffix(ending)
}

/// The name of the image that a file's name names: what stands in front of `.tif` or `.tiff`, or of either in capitals. None of a hidden
/// file, and of one that ends otherwise.
pub fn name_of(file: &str) -> Option<&str>
    ensures some { IfSome result (λ name. (is_hidden file.now ≡ false) × IsNameOf file.now name.now) }
    ensures none { IfNone result ((is_hidden file.now ≡ true) ⊎ EndsInNone file.now) }
{
    if is_hidden(file) {
        return None;
    }
    if let Some(name) = without(file, ".tif") {
        return Some(name);
    }
    if let Some(name) = without(file, ".tiff") {
        return Some(name);
    }
    if let Some(name) = without(file, ".TIF") {
        return Some(name);
    }
    without(file, ".TIFF")
}
