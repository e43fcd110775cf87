//! The pairs of a length field and a data field whose value is read by length.
ghost use Rattle.std.specs.Prelude.{◌≡◌};
ghost use Rattle.fix_fields.specs.Pairs.{is_length_tag, length_tag_of};

/// The tag of the length field that counts the data field with this tag; None exactly of a tag that
/// is no data tag. Which pairs there are is this project's own choice: the tags of any other pair
/// are read as ordinary fields.
#[inline(always)]
pub fn length_tag(data_tag: u32) -> Option<u32>
    ensures { result ≡ length_tag_of data_tag }
{
    // All data tags are greater than those that most fields have.
    if data_tag < 89 {
        return None;
    }
    match data_tag {
        91 => Some(90),
        89 => Some(93),
        96 => Some(95),
        213 => Some(212),
        349 => Some(348),
        351 => Some(350),
        353 => Some(352),
        355 => Some(354),
        357 => Some(356),
        359 => Some(358),
        361 => Some(360),
        363 => Some(362),
        365 => Some(364),
        446 => Some(445),
        619 => Some(618),
        622 => Some(621),
        _ => None,
    }
}

/// Whether a field with this tag may give the length of the data field after it.
#[inline(always)]
pub fn is_length(tag: u32) -> bool
    ensures { result ≡ is_length_tag tag }
{
    // All these tags are greater than those that most fields have.
    if tag < 90 {
        return false;
    }
    match tag {
        90 => true,
        93 => true,
        95 => true,
        212 => true,
        348 => true,
        350 => true,
        352 => true,
        354 => true,
        356 => true,
        358 => true,
        360 => true,
        362 => true,
        364 => true,
        445 => true,
        618 => true,
        621 => true,
        _ => false,
    }
}
