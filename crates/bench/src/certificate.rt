//! Reads the certificate in a file and prints it again, or the line at which it is refused. Where it is
//! timed, prints how many microseconds reading and printing took instead.

use cert_text::{CertEnd, print, read};
use std::fs;
use std::io::{self, Write};
use std::time::Instant;

/// Reads the certificate of a file, and prints it or the times.
pub(super) fn time_certificate(rt: &HostRuntime, path: &str, timed: bool) -> io::Result<()> {
    let bytes = fs::read(rt, path)?;
    let before = Instant::now(rt)?;
    match read(rt.alloc(), bytes.as_slice()) {
        Ok(cert) => {
            let between = Instant::now(rt)?;
            let text = print(rt.alloc(), &cert)?;
            let after = Instant::now(rt)?;
            if timed {
                let reading = between.saturating_duration_since(before).as_micros();
                let printing = after.saturating_duration_since(between).as_micros();
                println!(rt; "read {reading} print {printing} bytes {}", text.len())?;
            } else {
                io::writer(rt).write_all(text.as_slice())?;
            }
        }
        Err(CertEnd::Syntax { line }) => println!(rt; "E12 line {line}")?,
        Err(CertEnd::Memory) => println!(rt; "E19 memory")?,
    }
    Ok(())
}
