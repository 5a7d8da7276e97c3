// The list program: records from standard input, a line for each to standard output.
#![tactic(auto)]

// Plays the records and writes their lines.
fn play(input: &[u8], output: &mut [u8]) {
    let written = bench::run(input, output);
    io::write_all(1, &output[..written]);
}

fn main() {
    let mut input = [0u8; 209979]; // 9,999 records of 21 bytes; bytes after them are not looked at
    let mut output = [0u8; 269973]; // 9,999 lines of 27 bytes
    let got = io::read_full(0, &mut input);
    play(&input[..got], &mut output);
}
