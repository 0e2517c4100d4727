// The front of the page: its title, how it looks, and the counts.
use drawing::Out;
use machine::{State, Tally};

// What stands before the title.
fn put_front(out: &mut Out) {
    out.put_markup(
        b"<!DOCTYPE html>\n<!-- a page of the desk -->\n<html xmlns=\"http://www.w3.org/1999/xhtml\" lang=\"en\">\n<head>\n<meta charset=\"utf-8\"/>\n",
    );
    out.put_markup(
        b"<meta name=\"viewport\" content=\"width=device-width, initial-scale=1\"/>\n<title>",
    );
}

// How the page looks: its text and tables.
fn put_text_style(out: &mut Out) {
    out.put_markup(
        b"body{margin:0;font:16px/1.45 system-ui,-apple-system,\"Segoe UI\",Roboto,sans-serif;color:#1c2430;background:#f4f5f7}\nmain{max-width:76rem;margin:0 auto;padding:1rem}\nh1{font-size:1.5rem;margin:0 0 .5rem}\nh2{font-size:1.2rem;margin:0 0 .6rem}\nh3{font-size:1rem;margin:1rem 0 .3rem}\nh2::first-letter,.how::first-letter{text-transform:uppercase}\n",
    );
    out.put_markup(
        b"section{background:#fff;border:1px solid #d8dce3;border-radius:8px;padding:1rem;margin:0 0 1rem}\n.held{background:#b3121d;border-color:#7d0a12;color:#fff}\n.counts{list-style:none;display:flex;flex-wrap:wrap;gap:.5rem;margin:0 0 1rem;padding:0}\n.counts li{background:#fff;border:1px solid #d8dce3;border-radius:8px;padding:.3rem .8rem}\n.counts b{font-size:1.2rem}\n",
    );
    out.put_markup(
        b".lines{white-space:pre-line;margin:0;overflow-wrap:anywhere}\n.scroll,.picture{overflow-x:auto}\ntable{border-collapse:collapse;width:100%}\nth,td{text-align:left;vertical-align:top;padding:.35rem .8rem .35rem 0;border-bottom:1px solid #e6e9ee}\nth{font-weight:600;color:#566173}\ntr:last-child td{border-bottom:0}\na{color:#0b57a4}\nol{margin:.3rem 0 0;padding-left:1.6rem}\npre{overflow-x:auto;font-size:.8rem}\n.bad{color:#b3121d;font-weight:600}\n",
    );
}

// How the boxes look. What is told by a colour is told by words in the box too.
fn put_box_style(out: &mut Out) {
    out.put_markup(
        b"svg{display:block;font:12px ui-monospace,Menlo,Consolas,\"DejaVu Sans Mono\",\"Liberation Mono\",monospace}\nrect{fill:#fff;stroke:#c3c9d3}\ntext{fill:#1c2430}\n.state{font-style:italic;fill:#566173}\n.idle text{fill:#7a8494}\n.done rect{fill:#eef1f5}\n.run>rect{fill:#eef5fd;stroke:#0b57a4;stroke-width:2}\n",
    );
    out.put_markup(
        b".wait>rect{fill:#fff3c9;stroke:#a86f00;stroke-width:2.5}\n.ready>rect{fill:#d6e8fb;stroke:#0b57a4;stroke-width:2.5}\n.wait .state,.ready .state{fill:#1c2430;font-weight:700}\n.kept>rect{fill:#e2f4e5;stroke:#1c7a34;stroke-width:1.5}\n.kept .state{fill:#1c7a34}\n.fault>rect{fill:#fde4e4;stroke:#b3121d;stroke-width:2}\n.fault .state{fill:#b3121d;font-weight:700}\n.stop>rect{fill:#eceef1;stroke-dasharray:4 3}\n",
    );
    out.put_markup(
        b"@media print{body{background:#fff;font-size:11pt}main{max-width:none;padding:0}section{border:0;padding:0}.order{break-before:page}.picture,.scroll,pre{overflow:visible}svg{max-width:100%;height:auto}.held{border:3px solid #b3121d;background:#fff;color:#b3121d;padding:.5rem}}\n",
    );
}

// A count, and of what.
fn put_count(out: &mut Out, count: u64, of: &[u8]) {
    out.put_markup(b"<li><b>");
    out.put_number(count);
    out.put_markup(b"</b>");
    out.put(of);
    out.put_markup(b"</li>\n");
}

fn put_counts(out: &mut Out, live: u64, waiting: usize, tally: Tally) {
    out.put_markup(b"<ul class=\"counts\">\n");
    put_count(out, live, b" of 16 orders live");
    put_count(out, waiting as u64, b" of 64 messages waiting");
    put_count(out, tally.started as u64, b" started");
    put_count(out, tally.well as u64, b" ended well");
    put_count(out, tally.handled as u64, b" ended handled");
    put_count(out, tally.failed as u64, b" failed");
    put_count(out, tally.left as u64, b" left");
    out.put_markup(b"</ul>\n");
}

// The title: what stands in the window's name.
fn put_title(out: &mut Out, live: u64, waiting: usize) {
    out.put(b"Desk: ");
    out.put_number(live);
    out.put(b" orders live, ");
    out.put_number(waiting as u64);
    out.put(b" messages waiting");
}

pub(crate) fn put_head(out: &mut Out, state: State, tally: Tally) {
    let orders = state.orders;
    let live = wording::live_of(orders);
    put_front(out);
    put_title(out, live, state.waiting);
    out.put_markup(b"</title>\n<style>\n");
    put_text_style(out);
    put_box_style(out);
    out.put_markup(b"</style>\n</head>\n<body>\n<main>\n<h1>The desk</h1>\n");
    put_counts(out, live, state.waiting, tally);
}
