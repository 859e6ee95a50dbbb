// The report's text: every byte that the program prints.
ghost use Rattle.std.specs.Prelude.{◌≡◌};
ghost use Rattle.file.specs.Report.{report_of};

use crate::table::run_file;
use crate::text::Text;

// What the program prints for a run file.
pub fn report(file: &[u8]) -> Text
    ensures { result ≡ report_of file.now }
{
    let done = run_file(file);
    let mut text = Text::new();
    match done.outcome {
        Err(refusal) => text.push_refusal_line(refusal),
        Ok(figures) => {
            text.push_first_line(figures);
            text.push_head_lines(&done.heads[..figures.n]);
            text.push_last_line(figures);
        }
    }
    text
}
