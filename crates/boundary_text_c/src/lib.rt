// The exports of the crate boundary_text for C: a plan as text for callers in other languages, as a static library.
#![tactic(auto)]

// Writes the plan that a text says into `plan`: how many bytes it has; or the refusal's number times 2^32, and the line in trouble. The reasons of the
// crate sheet are told as 32 and more.
#[unsafe(no_mangle)]
pub extern "C" fn moonhalyard_text(text: &[u8], plan: &mut [u8]) -> u64 {
    boundary_text::moonhalyard_text(text, plan)
}

// Writes the text of a plan into `text`: how long it is; or the refusal's number times 2^32, and its place, or, for 18, how long the text is.
#[unsafe(no_mangle)]
pub extern "C" fn moonhalyard_draw(s: &[u8], text: &mut [u8]) -> u64 {
    boundary_text::moonhalyard_draw(s, text)
}
