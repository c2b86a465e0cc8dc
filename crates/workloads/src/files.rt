// Work on history files.
use history::judge;

// Marks for the largest file.
const MARKS: usize = 2048;

// What the judge says of a file, as the number that the program in plain Rust takes: the refusal's number, or 100 and then 1 for WCF, 2 for CONS and 4 for ACA, where they hold.
#[unsafe(no_mangle)]
pub extern "C" fn workload_judge(file: &[u8]) -> u32 {
    let mut marks = [0; MARKS];
    match judge(file, &mut marks) {
        Ok(verdict) => 100
            + 4 * u32::from(verdict.aca)
            + 2 * u32::from(verdict.cons)
            + u32::from(verdict.wcf),
        Err(fault) => fault.number(),
    }
}
