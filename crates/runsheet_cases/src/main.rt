// Prints what `runsheet` prints of each file that is named as an argument, after the file's name.
#![tactic(auto)]

use std::{env, fs, io};

fn main(rt: HostRuntime) -> io::Result<()> {
    let mut out = rt.stdout();
    for name in env::args(&rt)?.skip(1) {
        match fs::File::open(&rt, name.as_str()) {
            Ok(mut file) => {
                out.write_all(name.as_bytes())?;
                out.write_all(b": ")?;
                sheet::print::print_line(&mut file, &mut out)?;
            }
            Err(error) => eprintln!(rt; "{name}: {error}")?,
        }
    }
    Ok(())
}
