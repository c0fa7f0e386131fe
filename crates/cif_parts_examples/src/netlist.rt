// A netlist whose parts read what other parts own.

/// Registers of five kinds, two of them with an asynchronous reset, and a memory, with combinational cells between them. What
/// the memory reads is addressed by `c_open`, and `j_late` is reset by what `c_open` shows.
pub const NETLIST: &str = r#"{"modules":{"m":{"ports":{
"a":{"direction":"input","bits":[3,4]},
"b":{"direction":"input","bits":[5,6]},
"clk":{"direction":"input","bits":[2]},
"control":{"direction":"input","bits":[7,8,9]},
"q":{"direction":"output","bits":[17,18]}},"cells":{
"a_sum":{"type":"$add","parameters":{"A_SIGNED":0,"B_SIGNED":0,"A_WIDTH":2,"B_WIDTH":2,"Y_WIDTH":2},"connections":{"A":[3,4],"B":[20,21],"Y":[10,11]}},
"b_pick":{"type":"$mux","parameters":{"WIDTH":2},"connections":{"A":[10,11],"B":[30,31],"S":[7],"Y":[12,13]}},
"c_open":{"type":"$adff","parameters":{"WIDTH":2,"CLK_POLARITY":1,"ARST_POLARITY":1,"ARST_VALUE":"01"},"connections":{"CLK":[2],"D":[12,13],"Q":[22,23],"ARST":[8]}},
"d_mem":{"type":"$mem_v2","parameters":{"WIDTH":2,"SIZE":4,"OFFSET":0,"ABITS":2,"INIT":"11100100","RD_PORTS":1,"WR_PORTS":1,"RD_CLK_ENABLE":"0","RD_WIDE_CONTINUATION":"0","WR_CLK_ENABLE":"1","WR_CLK_POLARITY":"1","WR_WIDE_CONTINUATION":"0"},"connections":{"RD_ADDR":[22,23],"RD_DATA":[30,31],"WR_ADDR":[20,21],"WR_CLK":[2],"WR_DATA":[12,13],"WR_EN":[9,9]}},
"e_less":{"type":"$lt","parameters":{"A_SIGNED":0,"B_SIGNED":0,"A_WIDTH":2,"B_WIDTH":2,"Y_WIDTH":1},"connections":{"A":[22,23],"B":[5,6],"Y":[14]}},
"f_plain":{"type":"$dff","parameters":{"WIDTH":2,"CLK_POLARITY":1},"connections":{"CLK":[2],"D":[10,11],"Q":[20,21]}},
"g_held":{"type":"$dffe","parameters":{"WIDTH":2,"CLK_POLARITY":1,"EN_POLARITY":1},"connections":{"CLK":[2],"D":[30,31],"Q":[24,25],"EN":[14]}},
"h_reset":{"type":"$sdff","parameters":{"WIDTH":2,"CLK_POLARITY":1,"SRST_POLARITY":1,"SRST_VALUE":"10"},"connections":{"CLK":[2],"D":[24,25],"Q":[26,27],"SRST":[8]}},
"i_xor":{"type":"$xor","parameters":{"A_SIGNED":0,"B_SIGNED":0,"A_WIDTH":2,"B_WIDTH":2,"Y_WIDTH":2},"connections":{"A":[26,27],"B":[24,25],"Y":[15,16]}},
"j_late":{"type":"$adffe","parameters":{"WIDTH":2,"CLK_POLARITY":1,"EN_POLARITY":1,"ARST_POLARITY":1,"ARST_VALUE":"11"},"connections":{"CLK":[2],"D":[15,16],"Q":[28,29],"EN":[7],"ARST":[14]}},
"k_not":{"type":"$not","parameters":{"A_SIGNED":0,"A_WIDTH":2,"Y_WIDTH":2},"connections":{"A":[28,29],"Y":[17,18]}}}}}}"#;

/// Twelve cycles: writes at tainted and untainted addresses, both resets, cycles in which nothing is set, and a release.
pub const STIMULUS: &str = "cellift-stimulus 2
cycles 12
reg f_plain 01 10
mem d_mem 2 10 01
release q
@ 0
set a 01
set b 10 01
set control 000
@ 1
set control 101 100
@ 2
set a 11 10
set control 001
@ 4
set b 11
set control 110 010
@ 5
set control 100
@ 6
set a 10 01
set b 01 10
@ 8
set a 01
set control 101 001
@ 10
set b 00
set control 010
";
