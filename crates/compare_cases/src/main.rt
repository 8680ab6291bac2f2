// The compare tool on pairs of files, one folder of data/ each: a line with the folder's name, then what the tool prints (document 02, request Seven).
#![tactic(auto)]

use app_text::lines::OUT;

fn pair(rt: &HostRuntime, name: &[u8], a: &[u8], b: &[u8]) {
    app_text::lines::say(OUT, name);
    app_text::lines::say(OUT, b":\n");
    app_compare::compare(rt, a, b, None);
}

// Two whole pictures of one size.
fn pictures(rt: &HostRuntime) {
    pair(rt, b"equal", b"equal/a.pic", b"equal/b.pic");
    pair(rt, b"top_left", b"top_left/a.pic", b"top_left/b.pic");
    pair(rt, b"last_word", b"last_word/a.pic", b"last_word/b.pic");
    pair(rt, b"edge_tiles", b"edge_tiles/a.pic", b"edge_tiles/b.pic");
    pair(rt, b"corners", b"corners/a.pic", b"corners/b.pic");
    pair(rt, b"all_differ", b"all_differ/a.pic", b"all_differ/b.pic");
    pair(rt, b"high_byte", b"high_byte/a.pic", b"high_byte/b.pic");
    pair(rt, b"widest", b"widest/a.pic", b"widest/b.pic");
    pair(rt, b"highest", b"highest/a.pic", b"highest/b.pic");
}

// Sizes that differ, files that are short or too long, and which of the two is said.
fn sizes_and_lengths(rt: &HostRuntime) {
    pair(rt, b"size", b"size/a.pic", b"size/b.pic");
    pair(
        rt,
        b"size_turned",
        b"size_turned/a.pic",
        b"size_turned/b.pic",
    );
    pair(rt, b"short", b"short/a.pic", b"short/b.pic");
    pair(
        rt,
        b"short_second",
        b"short_second/a.pic",
        b"short_second/b.pic",
    );
    pair(
        rt,
        b"short_and_differs",
        b"short_and_differs/a.pic",
        b"short_and_differs/b.pic",
    );
    pair(rt, b"long", b"long/a.pic", b"long/b.pic");
    pair(
        rt,
        b"long_by_a_row",
        b"long_by_a_row/a.pic",
        b"long_by_a_row/b.pic",
    );
    pair(
        rt,
        b"bad_before_size",
        b"bad_before_size/a.pic",
        b"bad_before_size/b.pic",
    );
    pair(
        rt,
        b"bad_before_size_second",
        b"bad_before_size_second/a.pic",
        b"bad_before_size_second/b.pic",
    );
}

// Heads that are cut, sizes that 01 refuses, files that are missing.
fn heads_and_missing(rt: &HostRuntime) {
    pair(rt, b"head_cut", b"head_cut/a.pic", b"head_cut/b.pic");
    pair(rt, b"empty", b"empty/a.pic", b"empty/b.pic");
    pair(rt, b"no_width", b"no_width/a.pic", b"no_width/b.pic");
    pair(rt, b"no_height", b"no_height/a.pic", b"no_height/b.pic");
    pair(rt, b"too_wide", b"too_wide/a.pic", b"too_wide/b.pic");
    pair(rt, b"too_high", b"too_high/a.pic", b"too_high/b.pic");
    pair(rt, b"missing", b"missing/a.pic", b"missing/b.pic");
    pair(
        rt,
        b"missing_second",
        b"missing_second/a.pic",
        b"missing_second/b.pic",
    );
    pair(
        rt,
        b"missing_both",
        b"missing_both/a.pic",
        b"missing_both/b.pic",
    );
}

fn main(rt: HostRuntime) {
    pictures(&rt);
    sizes_and_lengths(&rt);
    heads_and_missing(&rt);
}
