//! How much of a file is looked at.

ghost use Rattle.std.specs.Prelude.{◌≡◌, take};
ghost use Rattle.listing.specs.Limits.{recording_limit};

/// How many bytes a recording may have. None has exactly so many, so a longer file cut to these is refused too.
const RECORDING_LIMIT: usize = 65_536;

/// What is looked at of a recording.
pub(crate) fn cut_recording(bytes: &[u8]) -> &[u8]
    ensures { result.now ≡ take recording_limit bytes.now }
{
    &bytes[..RECORDING_LIMIT.min(bytes.len())]
}
