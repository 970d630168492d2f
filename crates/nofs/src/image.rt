//! The first word of a command line: which image is served.
//!
//! Promise: a word names the disk in memory, a mirror of two files, or a file, the last two with the layout in which
//! they are made; one that begins as a mirror's or a layout's and has another shape names nothing. `Image.antt` in the
//! specs says which word names what, and `Examples.antt` in the proofs has words with what they name.
ghost use Rattle.std.specs.Prelude.{◌≡◌, option_map};
ghost use Rattle.nofs.specs.Image.{
  halves,
  image_in,
  is_path as is_path_in,
  laid_in,
  layout_in,
  meant,
  mirror_in,
  mirror_of as mirror_with,
  named_in,
};
ghost use Rattle.nofs_script.specs.Words.{number_of as number_in};

use nofs_pages::Layout;
use nofs_script::number_of;

/// The image that is served.
#[derive(Clone, Copy, Debug, PartialEq, Eq)]
pub enum ImageChoice<'a> {
    /// A disk in memory.
    Memory,
    /// A disk in this file, which `new` and `drill` make in this layout.
    File {
        layout: Layout,
        path: &'a str,
    },
    /// A mirror of so many blocks over two files, the lead first, which `new` and `drill` make in this layout.
    Mirror {
        layout: Layout,
        blocks: u64,
        lead: &'a str,
        other: &'a str,
    },
}

// The two halves of a text around its first colon.
fn halves_of(text: &str) -> Option<(&str, &str)>
    ensures { option_map (λ p. (p.0.now, p.1.now)) result ≡ halves text.now }
{
    text.split_once(':')
}

// The least and the most blocks of a mirror: as many as an image can have.
const LEAST_BLOCKS: u64 = 16;

const MOST_BLOCKS: u64 = 1_048_576;

// Whether a word can be a path.
fn is_path(word: &str) -> bool
    ensures { result ≡ is_path_in word.now }
{
    !word.is_empty() && word != "-"
}

// A mirror, by its words.
fn mirror_of<'a>(
    layout: Layout,
    blocks: &str,
    lead: &'a str,
    other: &'a str,
) -> Option<ImageChoice<'a>>
    ensures { option_map meant result ≡ mirror_with layout (number_in blocks.now) lead.now other.now }
{
    let blocks = number_of(blocks.as_bytes())?;
    if blocks < LEAST_BLOCKS || blocks > MOST_BLOCKS || !is_path(lead) || !is_path(other) {
        return None;
    }
    Some(ImageChoice::Mirror {
        layout,
        blocks,
        lead,
        other,
    })
}

// The mirror of the shape `BLOCKS:LEAD:OTHER`.
fn sides_of(layout: Layout, text: &str) -> Option<ImageChoice<'_>>
    ensures { option_map meant result ≡ mirror_in layout (halves text.now) }
{
    let (blocks, files) = halves_of(text)?;
    let (lead, other) = halves_of(files)?;
    if halves_of(other).is_some() {
        return None;
    }
    mirror_of(layout, blocks, lead, other)
}

// The layout that a word names.
fn layout_of(word: &str) -> Option<Layout>
    ensures { result ≡ layout_in word.now }
{
    match word {
        "paged" => Some(Layout::Paged),
        "twin" => Some(Layout::Twin),
        _ => None,
    }
}

// The file or the mirror behind the word of a layout.
fn laid_of(layout: Layout, text: &str) -> Option<ImageChoice<'_>>
    ensures { option_map meant result ≡ laid_in layout text.now (halves text.now) }
{
    if let Some(("mirror", rest)) = halves_of(text) {
        return sides_of(layout, rest);
    }
    if is_path(text) {
        Some(ImageChoice::File { layout, path: text })
    } else {
        None
    }
}

// The image of a word that has a colon.
fn named_of<'a>(word: &'a str, first: &str, rest: &'a str) -> Option<ImageChoice<'a>>
    ensures { option_map meant result ≡ named_in word.now first.now rest.now (layout_in first.now) }
{
    match layout_of(first) {
        Some(layout) => laid_of(layout, rest),
        None => {
            if first == "mirror" {
                sides_of(Layout::Packed, rest)
            } else {
                Some(ImageChoice::File {
                    layout: Layout::Packed,
                    path: word,
                })
            }
        }
    }
}

/// The image that a word names; none where it begins with `mirror:` and has not the shape `mirror:BLOCKS:LEAD:OTHER`,
/// or with `paged:` or `twin:` and has neither that shape nor a path behind it.
pub fn image_of(word: &str) -> Option<ImageChoice<'_>>
    ensures { option_map meant result ≡ image_in word.now }
{
    if word == "-" {
        return Some(ImageChoice::Memory);
    }
    match halves_of(word) {
        Some((first, rest)) => named_of(word, first, rest),
        None => Some(ImageChoice::File {
            layout: Layout::Packed,
            path: word,
        }),
    }
}
