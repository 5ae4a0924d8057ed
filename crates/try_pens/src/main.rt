// A test tool: the pens of many settings, as bytes, to compare with another program's.
//
// Standard input is settings of 24 bytes: w, p, q of eight bytes each, lowest byte first. An
// incomplete setting at the end is ignored. To each setting standard output gets an answer: one
// byte for the refusal, one for the number of corners, then two bytes to a corner, its x and its y
// in half pixels, each in two's complement.
#![tactic(auto)]

mod answer;

use inputs::Leave;

// Reads one setting and writes the answer to it. Where a write fails, there is nothing to tell.
fn one(rt: HostRuntime) -> Result<(), Leave> {
    let bytes: [u8; 24] = inputs::record(&mut rt.stdin())?;
    let w = wire::number(&bytes, 0);
    let p = wire::number(&bytes, 8);
    let q = wire::number(&bytes, 16);
    let b = pen::build(w, p, q);
    let mut out = [0u8; answer::ANSWER_MAX];
    let n = answer::encode(b, &mut out);
    rt.write_all(&out[..n]).map_err(|_| Leave::End)
}

fn main(rt: HostRuntime) {
    inputs::serve(
        rt.stderr(),
        b"try_pens: ",
        b"try_pens: standard input",
        || one(rt),
    );
}
