// Takes a bench sheet on standard input and prints its transcript.
#![tactic(auto)]

use bench_play::transcript;
use std::io::Read;
use std::process::ExitCode;

fn main(rt: HostRuntime) -> anyhow::Result<ExitCode> {
    let heap = rt.alloc();
    let mut text = Vec::new(heap);
    let _ = rt.stdin().read_to_end(&mut text)?;
    match bench_sheet::read(heap, text.as_slice()) {
        Ok(sheet) => {
            let out = transcript(heap, &sheet)?;
            rt.print(out.as_str())?;
            Ok(ExitCode::SUCCESS)
        }
        Err(error) => {
            eprintln!(rt; "{error}")?;
            Ok(ExitCode::FAILURE)
        }
    }
}
