// Prints the journal of the score in the file `score` over the list in the file `inputs`, from the start state, and
// last, if it is turned down, the number.
#![tactic(auto)]

ghost use Rattle.std.specs.Counts.{IsPrefixLen};

use std::fs::File;
use std::io;
use std::io::Read;
use std::rt::Files;

// One byte more than a file may have. A longer file fills it, and is turned down since that is no multiple of 4.
const SCORE_ROOM: usize = format::MOST_BYTES + 1;

const INPUTS_ROOM: usize = 16385;

fn main(rt: HostRuntime) -> io::Result<()> {
    let mut score = [0u8; SCORE_ROOM];
    let score_bytes = read_file(&rt, "score", &mut score);
    let mut inputs = [0u8; INPUTS_ROOM];
    let input_bytes = read_file(&rt, "inputs", &mut inputs);
    let mut journal = [0u8; 65536];
    let number = runner_run::play(&score[..score_bytes], &inputs[..input_bytes], &mut journal);
    print_journal(&rt, &journal)?;
    print_refusal(&rt, number)
}

// Reads a file until it ends or the buffer is full, and says how many bytes came. One that can't be read has none.
fn read_file(rt: &impl Files, path: &str, buf: &mut [u8]) -> usize
    ensures { IsPrefixLen result buf.new }
{
    match File::open(rt, path) {
        Ok(mut file) => read_all(&mut file, buf),
        Err(_) => 0,
    }
}

// A read that fails leaves no bytes, also half way. By `read`: of what came before a failure `read_exact` and `read_to_end`
// promise little, and no count of bytes.
fn read_all(file: &mut impl Read, buf: &mut [u8]) -> usize
    ensures { IsPrefixLen result buf.new }
{
    let mut done = 0;
    while done < buf.len() {
        match file.read(&mut buf[done..]) {
            Ok(0) => return done,
            Ok(more) => done += more,
            Err(_) => return 0,
        }
    }
    done
}

// Prints the words of a journal that was written over zeros.
fn print_journal(rt: &impl Print, journal: &[u8]) -> io::Result<()> {
    for k in 0..runner_text::shown_words(journal) {
        print_line(rt, words::word_at(journal, k))?;
    }
    Ok(())
}

fn print_line(rt: &impl Print, w: u32) -> io::Result<()> {
    rt.write_all(&runner_text::line(w))
}

// Says by which number a run is turned down, if it is.
fn print_refusal(rt: &impl Print, number: u64) -> io::Result<()> {
    if number == 0 {
        return Ok(());
    }
    println!(rt; "refused {number}")
}
