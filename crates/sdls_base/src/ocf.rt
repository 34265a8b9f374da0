ghost use Rattle.std.specs.Prelude.{◌≡◌, ◌≤◌, length, option_copied};
ghost use Rattle.sdls_base.specs.ControlField.{ocf_length, before_ocf, ocf_at};

/// The octets of an operational control field (CCSDS 132.0-B-3 and 732.0-B-4).
const OCF: usize = 4;

/// The octets before the operational control field, and the field where the frame has one.
pub fn cut_ocf(body: &[u8], has_ocf: bool) -> (&[u8], Option<&[u8]>)
    requires { ocf_length has_ocf ≤ length body.now }
    ensures before { result.0.now ≡ before_ocf has_ocf body.now }
    ensures field { option_copied result.1 ≡ ocf_at has_ocf body.now }
{
    if has_ocf {
        let (before, field) = body.split_at(body.len() - OCF);
        (before, Some(field))
    } else {
        (body, None)
    }
}
