// The counter that runs here, and the last line of a run.

use std::alloc::{AllocError, Global};

/// A counter of four bits.
pub const COUNTER: &str = r#"{"modules":{"counter":{
"ports":{"clk":{"direction":"input","bits":[2]},"en":{"direction":"input","bits":[4]},
 "q":{"direction":"output","bits":[5,6,7,8]},"rst":{"direction":"input","bits":[3]}},
"cells":{
"add":{"type":"$add","parameters":{"A_SIGNED":0,"A_WIDTH":4,"B_SIGNED":0,"B_WIDTH":1,"Y_WIDTH":4},
 "connections":{"A":[5,6,7,8],"B":["1"],"Y":[9,10,11,12]}},
"count":{"type":"$sdffe","parameters":{"CLK_POLARITY":1,"EN_POLARITY":1,"SRST_POLARITY":1,"SRST_VALUE":"0000","WIDTH":4},
 "connections":{"CLK":[2],"D":[9,10,11,12],"EN":[4],"Q":[5,6,7,8],"SRST":[3]}}},
"netnames":{"q":{"bits":[5,6,7,8]}}}}}"#;

/// The line of the workers' counts.
pub fn workers_line(alloc: Global, counts: &[u64]) -> Result<String, AllocError> {
    let mut line = String::from_str(alloc, "workers")?;
    for count in counts {
        line.push_str(&format!(in alloc; " {count}")?)?;
    }
    line.push('\n')?;
    Ok(line)
}
