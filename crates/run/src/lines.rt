// The lines of a report, each added to a text.
ghost use Rattle.std.specs.Prelude.{◌≡◌, length, Ok, Err};
ghost use Rattle.file.specs.Figures.{outcome_read};
ghost use Rattle.file.specs.Report.{first_line, head_line, head_lines, last_line, refusal_line};
ghost use Rattle.run.specs.Writing.{with_word};

use crate::text::Text;
use file::{Figures, Refusal};
use rules::Head;

#[tactic(auto, using(crate::proofs::Texts::word_word, std::proofs::Common::append_assoc), unfolding(crate::proofs::Texts::writing))]
impl Text {
    pub(crate) fn push_refusal_line(&mut self, refusal: Refusal)
        ensures { self.new ≡ with_word self.old (refusal_line (outcome_read (Err refusal))) }
    {
        self.push_figure(b"refused ", usize::from(refusal.number()));
        self.push_figure(b" at ", refusal.place);
        self.push(b"\n");
    }

    pub(crate) fn push_first_line(&mut self, figures: Figures)
        ensures { self.new ≡ with_word self.old (first_line (outcome_read (Ok figures))) }
    {
        self.push_figure(b"heads ", figures.n);
        self.push_figure(b" need ", figures.needed);
        self.push_figure(b" bound ", figures.bound);
        self.push(b"\n");
    }

    pub(crate) fn push_last_line(&mut self, figures: Figures)
        ensures { self.new ≡ with_word self.old (last_line (outcome_read (Ok figures))) }
    {
        self.push_figure(b"rounds ", figures.rounds);
        self.push_figure(b" good ", figures.good);
        self.push_figure(b" decided ", figures.decided);
        self.push(b"\n");
    }

    // One line for each head.
    pub(crate) fn push_head_lines(&mut self, heads: &[Head])
        ensures { self.new ≡ with_word self.old (head_lines (length heads.now) heads.now) }
    {
        for (s, head) in heads.iter().enumerate() {
            self.push_head_line(s, head);
        }
    }

    fn push_head_line(&mut self, s: usize, head: &Head)
        ensures { self.new ≡ with_word self.old (head_line s head.now) }
    {
        self.push_figure(b"head ", s);
        self.push_figure(b" phase ", usize::from(head.phase));
        self.push_word(b" value ", head.value);
        self.push_word(b" status ", head.status);
        self.push_word(b" decision ", head.decision);
        self.push(b"\n");
    }
}
