//! Files of images, with words.

ghost use Rattle.std.specs.Prelude.{IfErr, IfOk, map};
ghost use Rattle.guest_words.specs.Given.{GivesNoWords, GivesWithWords};

use crate::fault::WordsFault;
use crate::filling::with_words;
use image_files::Folder;

/// The bytes of an image's file, with words in its object `__guest_words`; with no words as they are.
pub fn read_with_words<'a, R: Folder + AllocGlobal>(
    rt: &R,
    image: &'a str,
    words: &[&str],
) -> Result<Vec<u8>, WordsFault<'a>>
    ensures given { IfOk result (λ file. GivesWithWords R.gives (map (λ s.
        s.now) words.now) image.now file.items) }
    ensures refused { IfErr result (GivesNoWords R.gives R.withholds (map (λ s.
        s.now) words.now) image.now) }
{
    let file = rt.read(image)?;
    with_words(rt.alloc(), file, image, words)
}
