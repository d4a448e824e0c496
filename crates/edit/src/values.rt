// Values. A width is a number, 0, 1 or 8, as document 01 has it.
ghost use Rattle.std.specs.Prelude.{◌≡◌, true};
ghost use Rattle.paper.specs.Calls.{is_width, fits_width};

// Whether a value has at most `width` bytes: 0 alone at width 0, up to 255 at width 1, all at width 8.
#[tactic(auto, using(crate::proofs::Widths::widths))]
pub(crate) fn fits_width(width: u8, value: u64) -> bool
    requires { is_width width ≡ true }
    ensures { result ≡ fits_width width value }
{
    match width {
        0 => value == 0,
        1 => value < 256,
        _ => true,
    }
}
