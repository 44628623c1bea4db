//! What the roles look like, and the words about signs.

/// What the roles look like, the patterns, and the paper.
pub const STYLE: &str = "<style>
text{font:11px monospace}
.rule{fill:#ccc}
.reading{fill:#fff;stroke:#000}
.committing{fill:#bbb;stroke:#000}
.aborted{fill:url(#hatch);stroke:#000}
.lock{fill:#000}
.arrow{fill:none;stroke:#000;marker-end:url(#head)}
.sign{text-anchor:middle;font-weight:bold;paint-order:stroke;stroke:#fff;stroke-width:3px}
</style>
<defs>
<pattern id='hatch' width='6' height='6' patternUnits='userSpaceOnUse' patternTransform='rotate(45)'>
<rect width='1' height='6'/>
</pattern>
<marker id='head' viewBox='0 0 8 8' refX='7' refY='4' markerWidth='8' markerHeight='8' orient='auto'>
<path d='M0 0L8 4L0 8z'/>
</marker>
</defs>
<rect width='100%' height='100%' fill='#fff'/>
";

/// The words about signs.
pub const LEGEND: &str = "<rect class='rule' x='-12' y='0' width='740' height='1'/>
<rect class='reading' x='1' y='12' width='28' height='16'/>
<text x='36' y='24'>reading</text>
<rect class='committing' x='111' y='12' width='28' height='16'/>
<text x='146' y='24'>committing</text>
<rect class='reading' x='241' y='12' width='28' height='16'/>
<rect class='aborted' x='241' y='12' width='28' height='16'/>
<text x='276' y='24'>aborted</text>
<rect class='lock' x='351' y='17' width='28' height='7'/>
<text x='386' y='24'>locked</text>
<path class='arrow' d='M456 26V20H484V10'/>
<text x='496' y='24'>a release that an attempt found</text>
<text x='0' y='48'>s start, o open, w word, c close, n renew the clock, r recheck</text>
<text x='0' y='64'>L lock, T test, D draw a ticket, C check, Y commit, N drop the ticket, P put, R release, U unlock</text>
<text x='0' y='80'>Below the bar of an attempt: the position of its transaction in the thread, and how it ended.</text>
";
