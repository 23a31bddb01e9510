//! What a page is made of besides its data: how it looks, and the script that steps through the run.

/// What stands before the data.
pub(crate) const START: &str = "<!DOCTYPE html>
<html lang='en'>
<head>
<meta charset='utf-8'>
<meta name='viewport' content='width=device-width'>
<title>sqmod trace</title>
<style>
:root { color-scheme: light dark; --line: #8886; --new: #2a83; --changed: #fb06; --gone: #d335; }
body { margin: 0; display: grid; grid-template-columns: minmax(16em, 26em) 1fr; height: 100vh; font: 15px/1.4 sans-serif; }
nav, main { overflow: auto; padding: 1em; }
nav { border-right: 1px solid var(--line); }
h1 { font-size: 1.1em; margin: 0 0 .5em; }
h2 { font-size: 1em; margin: 1.2em 0 .3em; }
#calls { list-style: none; margin: 0; padding: 0; }
#calls button { display: block; width: 100%; padding: .2em .5em; border: 0; border-radius: 4px; background: none;
  color: inherit; font: 13px/1.4 monospace; text-align: left; white-space: pre; overflow: hidden; cursor: pointer; }
#calls button.failed { color: #c33; }
#calls button[aria-current=true] { background: var(--line); }
pre, td, th { font: 13px/1.5 monospace; }
pre { margin: 0; white-space: pre-wrap; }
#tables { display: flex; flex-wrap: wrap; gap: 1.5em; align-items: start; }
table { border-collapse: collapse; }
caption { text-align: left; font-weight: bold; padding-bottom: .2em; }
td, th { border: 1px solid var(--line); padding: .1em .6em; text-align: left; }
th.row, td.row { color: #888; }
.new, span.new { background: var(--new); }
.changed { background: var(--changed); }
.gone { background: var(--gone); text-decoration: line-through; }
.hint { color: #888; font-size: 13px; }
</style>
</head>
<body>
<nav>
<h1>Calls</h1>
<p class='hint'>The arrow keys step.</p>
<ol id='calls'></ol>
</nav>
<main>
<pre id='report'></pre>
<h2>What it did</h2>
<pre id='notes'></pre>
<h2>Tables</h2>
<p class='hint'><span class='new'>new</span> <span class='changed'>changed</span> <span class='gone'>gone</span></p>
<div id='tables'></div>
<h2>Cursors</h2>
<pre id='cursors'></pre>
</main>
<script type='application/json' id='data'>
";

/// What stands behind the data.
pub(crate) const END: &str = "]}
</script>
<script>
'use strict';
const data = JSON.parse(document.getElementById('data').textContent);
const calls = document.getElementById('calls');
let chosen = 0;

// The lines of an item: those of the report, and the notes without their mark.
const linesOf = item => item.lines.split('\\n').filter(line => line !== '');
const isNote = line => line.startsWith('  --');
const reportOf = item => linesOf(item).filter(line => !isNote(line));
const notesOf = item => linesOf(item).filter(isNote).map(line => line.slice(5));
const isFailed = item => / (?!00000|01004|02000)[0-9S][0-9A-Z]{4} -[0-9]+$/.test(reportOf(item)[0]);

function made(tag, text, kind) {
  const element = document.createElement(tag);
  element.textContent = text;
  if (kind) element.className = kind;
  return element;
}

// The rows of a table before and behind a step, those that are gone among them, by rising numbers.
function rowsAt(step, table) {
  const now = data.items[step].tables[table];
  const before = step > 0 ? data.items[step - 1].tables[table] : [];
  const old = new Map(before.map(row => [row[0], row]));
  const left = new Set(now.map(row => row[0]));
  const rows = now.map(row => ({ row, was: old.get(row[0]), kind: old.has(row[0]) ? '' : 'new' }));
  const gone = before.filter(row => !left.has(row[0])).map(row => ({ row, was: row, kind: 'gone' }));
  return rows.concat(gone).sort((one, other) => one.row[0] - other.row[0]);
}

function lineOf({ row, was, kind }) {
  const line = made('tr', '', kind);
  row.forEach((cell, place) => {
    const isChanged = was !== undefined && was[place] !== cell;
    const element = made('td', cell, place === 0 ? 'row' : isChanged ? 'changed' : '');
    if (isChanged) element.title = 'before: ' + was[place];
    line.append(element);
  });
  return line;
}

function tableAt(step, place) {
  const { name, columns } = data.tables[place];
  const table = made('table', '');
  const heading = made('tr', '');
  heading.append(made('th', 'row', 'row'), ...columns.map(column => made('th', column)));
  table.append(made('caption', name), heading, ...rowsAt(step, place).map(lineOf));
  return table;
}

function show(step) {
  chosen = Math.max(0, Math.min(step, data.items.length - 1));
  const item = data.items[chosen];
  if (!item) return;
  document.getElementById('report').textContent = reportOf(item).join('\\n');
  document.getElementById('notes').textContent = notesOf(item).join('\\n');
  document.getElementById('tables').replaceChildren(...data.tables.map((table, place) => tableAt(chosen, place)));
  document.getElementById('cursors').textContent = data.cursors.map((name, place) => name + item.cursors[place]).join('\\n');
  [...calls.querySelectorAll('button')].forEach((button, place) => {
    button.setAttribute('aria-current', place === chosen);
    if (place === chosen) button.scrollIntoView({ block: 'nearest' });
  });
}

data.items.forEach((item, place) => {
  const entry = document.createElement('li');
  const button = made('button', reportOf(item)[0], isFailed(item) ? 'failed' : '');
  button.addEventListener('click', () => show(place));
  entry.append(button);
  calls.append(entry);
});

document.addEventListener('keydown', event => {
  const steps = { ArrowDown: 1, ArrowRight: 1, ArrowUp: -1, ArrowLeft: -1 };
  if (event.key in steps) {
    event.preventDefault();
    show(chosen + steps[event.key]);
  }
});

show(0);
</script>
</body>
</html>
";
