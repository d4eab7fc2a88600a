//! The script that is generated from a number.

use std::test::Fail;
use ua_script::print;
use ua_shell::generated_script;

#[test]
fn text_is_fixed(rt: HostRuntime) -> Result<(), Fail> {
    let alloc = rt.alloc();
    let script = generated_script(alloc, 0)?;
    let text = b"algebra G size 3
op f0 2 = 0 0 1 1 0 1 1 1 2
op f1 1 = 1 0 1
end
close G 7 [1 2 0 0 1 1 2] [0 0 1 1 2 2 2] [1 1 1 0 1 2 0] [1 2 0 1 0 1 1] count
con G
";
    assert_eq!(rt; print(alloc, &script)?.as_slice(), text.as_slice());
    Ok(())
}
