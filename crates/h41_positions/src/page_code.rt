//! The keystroke code of a page, as a place that contains programs. Each word of the page contains one byte of the code;
//! an offset is the index of a word in the page, 0 to 4095.

ghost use Rattle.std.specs.Prelude.{◌≡◌, ◌<◌, ◌≤◌, length, is_some};
ghost use Rattle.h41_pages.specs.Addresses.{page_size};
ghost use Rattle.h41_pages.specs.FunctionTables.{code_of, keystroke_offsets};
ghost use Rattle.h41_positions.specs.PageLines.{StartsAt};
ghost use Rattle.h41_program.specs.Numbering.{number_in};
ghost use Rattle.h41_program.specs.Sources.{HasFirst, bytes_source};
ghost use Rattle.h41_walk.specs.Searches.{AnswersAll};

use h41_codes::Line;
use h41_pages::Pages;
use h41_program::laws::each_is_listed;
use h41_program::{Found, ListedLine, Taken, is_end, is_final_end, line_in};
use h41_walk::{Code, Programs, number_from};

/// The keystroke code of a page: the low eight bits of the words of its bank 1.
#[derive(Drop)]
pub struct PageCode<'a> {
    /// The page map, in which the starts of programs are read.
    pages: &'a Pages,
    /// The number of the page, 0 to 15.
    page: usize,
    /// The keystroke code, at most 4096 bytes. It is empty if bank 1 is not plugged.
    code: &'a [u8],
}

impl<'a> PageCode<'a> {
    /// Returns the keystroke code of a page, 0 to 15.
    #[inline(always)]
    pub fn of(pages: &'a Pages, page: usize) -> PageCode<'a>
        requires { page < 16 }
        ensures pages { result.pages.now ≡ pages.now }
        ensures page { result.page ≡ page }
        ensures code { result.code.now ≡ code_of pages.now page }
        ensures readable { (result.code.now ≡ code_of result.pages.now result.page)
            × (result.page < 16) × (length result.code.now ≤ page_size) }
    {
        PageCode {
            pages,
            page,
            code: pages.code(page),
        }
    }
}

impl Code for PageCode<'_> {
    ghost source = { λ page. bytes_source page.code.now };

    ghost is_readable = { λ page. (page.code.now ≡ code_of page.pages.now page.page)
        × (page.page < 16) × (length page.code.now ≤ page_size) };

    #[inline(always)]
    fn first_from(&self, at: u16) -> Option<Found> {
        match line_in(self.code, usize::from(at)) {
            Some(taken) => {
                let Taken {
                    position,
                    line,
                    behind,
                } = taken;
                Some(Found {
                    listed: ListedLine {
                        position: position as u16,
                        line,
                    },
                    behind: behind as u16,
                })
            }
            None => None,
        }
    }

    #[inline(always)]
    fn byte_at(&self, at: u16) -> u8 {
        self.code[usize::from(at)]
    }

    #[inline(always)]
    fn ends(&self, line: &Line) -> bool {
        is_end(line) || is_final_end(*line)
    }

    #[inline(always)]
    fn stays(&self) -> bool {
        false
    }
}

impl Programs for PageCode<'_> {
    ghost starts = { λ page at start.
        StartsAt page.code.now (keystroke_offsets page.pages.now page.page) at start };

    fn start_of(&self, at: u16) -> u16 {
        match self.first_from(at) {
            Some(first) => {
                let begins = self.pages.keystroke_offsets(self.page);
                start_reaching(self, begins.as_slice(), at, first)
            }
            None => at,
        }
    }
}

/// Returns the offset at which the program that contains the offset `at` begins, if the first line at or after `at` is
/// `first`. It is the lowest of the offsets `begins`, at most `at`, from which the lines that are read in turn include
/// `first`, or `at` if there is none.
fn start_reaching(page: &PageCode<'_>, begins: &[u16], at: u16, first: Found) -> u16
    requires code { page.now.code.now ≡ code_of page.now.pages.now page.now.page }
    requires page { page.now.page < 16 }
    requires size { length page.now.code.now ≤ page_size }
    requires inside { at < page_size }
    requires first { HasFirst (bytes_source page.now.code.now) at first }
    ensures { StartsAt page.now.code.now begins.now at result }
{
    each_is_listed();
    let mut least = at + 1;
    for index in 0..begins.len() {
        let begin = begins[index];
        if begin < least && has_line(page, begin, first.listed.position) {
            least = begin;
        }
    }
    if least <= at { least } else { at }
}

/// Returns whether a line begins at the offset `position`, if the lines of a page are read in turn from the offset
/// `from` to the end of the program.
fn has_line(page: &PageCode<'_>, from: u16, position: u16) -> bool
    requires code { page.now.code.now ≡ code_of page.now.pages.now page.now.page }
    requires page { page.now.page < 16 }
    requires size { length page.now.code.now ≤ page_size }
    ensures { AnswersAll (λ lines. is_some (number_in position lines))
        (bytes_source page.now.code.now) from result }
{
    number_from(page, from, position).is_some()
}
