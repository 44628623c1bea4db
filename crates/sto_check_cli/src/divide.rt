//! A script and a report, with a line between them.
ghost use Rattle.std.specs.Prelude.{◌≡◌, ◌<◌, length, true, false, MatchOption, IfSome};
ghost use Rattle.sto_check_cli.specs.Inputs.{is_report_line, has_report, script_in, report_in};

use sto_checker::first_line;

fn is_report_line(line: &[u8]) -> bool
    ensures { result ≡ is_report_line line.now }
{
    line == b"report\n".as_slice() || line == b"report".as_slice()
}

/// What stands before the first line that is exactly `report`, and what stands behind it. None comes exactly where there is no
/// such line.
pub(crate) fn divide(bytes: &[u8]) -> Option<(&[u8], &[u8])>
    ensures divided { MatchOption result (has_report bytes.now ≡ false) (λ parts. (has_report bytes.now ≡ true)
        × (parts.0.now ≡ script_in bytes.now) × (parts.1.now ≡ report_in bytes.now)) }
    ensures less { IfSome result (λ parts. length parts.1.now < length bytes.now) }
{
    let mut rest = bytes;
    let mut before = 0;
    while let Some((line, more)) = first_line(rest) {
        if is_report_line(line.text) {
            return Some((&bytes[..before], more));
        }
        before += line.text.len();
        rest = more;
    }
    None
}
