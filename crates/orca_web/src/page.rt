//! The page that browsers get. `scripts/page.py` makes this file of `web/page.html`.

/// The head of the answer that gives the page (RFC 9112, section 4).
pub const PAGE_HEAD: &[u8] = b"HTTP/1.1 200 OK\r\n\
Content-Type: text/html; charset=utf-8\r\n\
Content-Length: 34420\r\n\
Connection: close\r\n\
Cache-Control: no-store\r\n\
Referrer-Policy: no-referrer\r\n\
X-Content-Type-Options: nosniff\r\n\
Content-Security-Policy: default-src 'none'; script-src 'sha256-MNuRb7SjL5Evx8SPa+j2aYnCfoeZ5pZKCF+DQMguotg='; style-src 'sha256-aD8JMH5/X6XdwUBOUPkQR/ZHMdZS3sp9yCx07ydf94Y='; connect-src 'self'; img-src data:; base-uri 'none'; form-action 'none'; frame-ancestors 'none'\r\n\
\r\n\
";

/// The page.
pub const PAGE: &[u8] = b"<!doctype html>\n\
<html lang=\"en\">\n\
<meta charset=\"utf-8\">\n\
<meta name=\"viewport\" content=\"width=device-width, initial-scale=1, viewport-fit=cover, interactive-widget=resizes-content\">\n\
<title>orca</title>\n\
<link rel=\"icon\" href=\"data:,\">\n\
<style>\n\
:root {\n\
\x20 color-scheme: dark; --ground: #14171c; --text: #aeb6c0; --faint: #5d6876; --line: #232830; --good: #8fc379; --bad: #ff8a93;\n\
\x20 --mono: ui-monospace, Menlo, Consolas, 'DejaVu Sans Mono', 'Liberation Mono', monospace;\n\
}\n\
* { box-sizing: border-box; }\n\
html, body {\n\
\x20 margin: 0; height: 100%; overflow: hidden; overscroll-behavior: none;\n\
\x20 background: var(--ground); color: var(--text); font: 12px/1 var(--mono);\n\
}\n\
body { display: flex; flex-direction: column; height: 100dvh; user-select: none; -webkit-user-select: none; -webkit-touch-callout: none; }\n\
#stage { flex: 1; min-height: 0; position: relative; overflow: hidden; touch-action: none; cursor: default; }\n\
#screen { position: absolute; transition: opacity .2s; }\n\
#pad {\n\
\x20 position: absolute; width: 1px; height: 1em; padding: 0; border: 0; opacity: 0; resize: none; font-size: 16px; pointer-events: none;\n\
}\n\
.lost #screen { opacity: .35; }\n\
#bar { display: none; border-top: 1px solid var(--line); padding: 4px; }\n\
.keys #bar { display: block; }\n\
#bar div { display: flex; gap: 4px; overflow-x: auto; scrollbar-width: none; padding: 2px; }\n\
#bar button {\n\
\x20 flex: 1 0 auto; min-width: 40px; height: 40px; font-size: 15px; background: #1c2128; border-radius: 6px; touch-action: manipulation;\n\
}\n\
#bar #glyphs { touch-action: pan-x; }\n\
#glyphs button { min-width: 34px; touch-action: pan-x; }\n\
button, select {\n\
\x20 font: inherit; color: inherit; background: none; border: 1px solid var(--line); border-radius: 4px; padding: 2px 6px;\n\
}\n\
button:active, button.held { background: #2f4b6b; color: #fff; }\n\
select option { background: var(--ground); }\n\
#foot {\n\
\x20 display: flex; gap: 12px; align-items: center; height: 26px; padding: 0 10px; border-top: 1px solid var(--line);\n\
\x20 color: var(--faint); white-space: nowrap; overflow-x: auto; overflow-y: hidden; scrollbar-width: none;\n\
}\n\
#foot > * { flex: none; }\n\
#say { flex: 1 0 auto; }\n\
#dot { width: 8px; height: 8px; border-radius: 4px; background: var(--good); }\n\
.lost #dot { background: var(--bad); }\n\
.lost #say { color: var(--bad); }\n\
#level { width: 70px; accent-color: #61a8e8; }\n\
@media (pointer: coarse) { #foot { height: 36px; } #foot button, #foot select { padding: 8px; } }\n\
</style>\n\
<main id=\"stage\">\n\
\x20 <canvas id=\"screen\"></canvas>\n\
\x20 <textarea id=\"pad\" aria-label=\"keys\" inputmode=\"none\" autocapitalize=\"off\" autocomplete=\"off\" autocorrect=\"off\" spellcheck=\"false\"></textarea>\n\
</main>\n\
<nav id=\"bar\"><div id=\"moves\"></div><div id=\"glyphs\"></div></nav>\n\
<footer id=\"foot\">\n\
\x20 <i id=\"dot\"></i><span id=\"say\">connecting</span><span id=\"size\"></span>\n\
\x20 <label>sound <select id=\"out\"></select></label>\n\
\x20 <input id=\"level\" type=\"range\" max=\"1\" step=\".01\" value=\".7\" aria-label=\"level\">\n\
\x20 <button id=\"keys\" title=\"keys for touch\">keys</button>\n\
\x20 <button id=\"soft\" title=\"the keyboard of the system\">abc</button>\n\
\x20 <button id=\"full\" title=\"the whole screen, with all keys\">full</button>\n\
</footer>\n\
<script>\n\
'use strict';\n\
const find = id => document.getElementById(id);\n\
const clamp = (least, n, most) => Math.max(least, Math.min(n, most));\n\
const later = (milliseconds, act) => setTimeout(act, milliseconds);\n\
const isMac = /Mac|iP(hone|ad)/.test(navigator.platform);\n\
const isTouch = matchMedia('(pointer: coarse)').matches;\n\
\n\
// The sizes of a picture that orca paints.\n\
const MIN_ROWS = 2, MAX_ROWS = 100, MIN_COLUMNS = 8, MAX_COLUMNS = 256;\n\
\n\
// ---- The terminal. It knows what orca sends: bytes to show, ESC [ row ; column H, ESC [ style m, and CAN where a\n\
// picture was given up. What else it comes upon is skipped. A cell is its byte and 256 times its style.\n\
const CAN = 0x18, ESC = 0x1b, SPACE = 0x20, TILDE = 0x7e;\n\
class Terminal {\n\
\x20 constructor(rows, columns, old) {\n\
\x20   Object.assign(this, { rows, columns, y: 0, x: 0, style: 0, isTorn: false });\n\
\x20   this.cells = new Uint16Array(rows * columns).fill(SPACE);\n\
\x20   if (old) this.copy(old);\n\
\x20   this.begin();\n\
\x20 }\n\
\x20 copy(old) {\n\
\x20   const width = Math.min(this.columns, old.columns);\n\
\x20   for (let y = 0; y < Math.min(this.rows, old.rows); y++) {\n\
\x20     this.cells.set(old.cells.subarray(y * old.columns, y * old.columns + width), y * this.columns);\n\
\x20   }\n\
\x20 }\n\
\x20 begin() {\n\
\x20   this.state = 'text';\n\
\x20   this.numbers = [0];\n\
\x20   this.digits = 0;\n\
\x20 }\n\
\x20 take(bytes) {\n\
\x20   for (const byte of bytes) this.byte(byte);\n\
\x20 }\n\
\x20 byte(b) {\n\
\x20   if (b === CAN) {\n\
\x20     this.begin();\n\
\x20     this.isTorn = true;\n\
\x20   } else if (b === ESC) {\n\
\x20     this.begin();\n\
\x20     this.state = 'escape';\n\
\x20   } else if (this.state === 'text') {\n\
\x20     if (b >= SPACE && b <= TILDE) this.show(b);\n\
\x20   } else if (this.state === 'escape') {\n\
\x20     this.state = b === 0x5b ? 'numbers' : 'text';\n\
\x20   } else if (b >= 0x40) {\n\
\x20     if (this.state === 'numbers' && this.digits) this.end(b, ...this.numbers);\n\
\x20     this.begin();\n\
\x20   } else if (this.state === 'numbers') {\n\
\x20     this.inside(b);\n\
\x20   }\n\
\x20 }\n\
\x20 // At most two numbers of one to three digits: any other sequence is skipped up to its end.\n\
\x20 inside(b) {\n\
\x20   if (b >= 0x30 && b <= 0x39 && this.digits < 3) {\n\
\x20     this.numbers.push(this.numbers.pop() * 10 + b - 0x30);\n\
\x20     this.digits++;\n\
\x20   } else if (b === 0x3b && this.digits && this.numbers.length < 2) {\n\
\x20     this.numbers.push(0);\n\
\x20     this.digits = 0;\n\
\x20   } else {\n\
\x20     this.state = 'skipped';\n\
\x20   }\n\
\x20 }\n\
\x20 end(last, first, second) {\n\
\x20   if (last === 0x48 && first && second) {\n\
\x20     this.y = first - 1;\n\
\x20     this.x = second - 1;\n\
\x20   } else if (last === 0x6d && second === undefined && first < 256) {\n\
\x20     this.style = first;\n\
\x20   }\n\
\x20 }\n\
\x20 show(b) {\n\
\x20   if (this.y < this.rows && this.x < this.columns) {\n\
\x20     this.cells[this.y * this.columns + this.x++] = b | this.style << 8;\n\
\x20   }\n\
\x20 }\n\
}\n\
\n\
// ---- The picture. A cell that changed is copied from a strip of all glyphs in its style, in whole pixels of the device.\n\
const GROUND = '#14171c', TEXT = '#aeb6c0';\n\
const INKS = [\n\
\x20 '#5d6876', '#e06c75', '#8fc379', '#d9b36c', '#61a8e8', '#c585dd', '#56b6c2', '#aeb6c0',\n\
\x20 '#6b7584', '#ff8a93', '#b0e59a', '#ffd68a', '#8ac6ff', '#e2a8f5', '#7fdbe6', '#ffffff',\n\
];\n\
// The look of cells in the last row that have no style of their own: it stands beside the styles, which are bytes.\n\
const STATUS = 256;\n\
function lookOf(style) {\n\
\x20 const tens = Math.floor(style / 10), color = style % 10;\n\
\x20 if (style === 1) return { ink: '#fff', ground: GROUND, isBold: true };\n\
\x20 if (style === 2) return { ink: '#4c5562', ground: GROUND };\n\
\x20 if (style === 4) return { ink: '#d3dae2', ground: GROUND, isUnderlined: true };\n\
\x20 if (style === 7) return { ink: GROUND, ground: '#c9d1da' };\n\
\x20 if (style === STATUS) return { ink: '#8d97a3', ground: '#1a1e25' };\n\
\x20 if (color < 8 && (tens === 3 || tens === 9)) return { ink: INKS[color + (tens === 9 ? 8 : 0)], ground: GROUND };\n\
\x20 if (color < 8 && (tens === 4 || tens === 10)) return { ink: GROUND, ground: INKS[color + (tens === 10 ? 8 : 0)] };\n\
\x20 return { ink: TEXT, ground: GROUND };\n\
}\n\
const screen = find('screen'), pen = screen.getContext('2d', { alpha: false });\n\
const fontOf = (pixels, isBold) => `${isBold ? 'bold ' : ''}${pixels}px ui-monospace, Menlo, Consolas, 'DejaVu Sans Mono', 'Liberation Mono', monospace`;\n\
let terminal = new Terminal(24, 80), cell = { pixels: 16, width: 10, height: 20 };\n\
let shown = null, strips = {}, isPaintDue = false, density = 1;\n\
\n\
function stripOf(style) {\n\
\x20 const strip = document.createElement('canvas'), { ink, ground, isBold, isUnderlined } = lookOf(style);\n\
\x20 const { width, height, pixels } = cell;\n\
\x20 strip.width = (TILDE - SPACE + 1) * width;\n\
\x20 strip.height = height;\n\
\x20 const brush = strip.getContext('2d', { alpha: false }), base = Math.round((height + pixels * .7) / 2);\n\
\x20 brush.fillStyle = ground;\n\
\x20 brush.fillRect(0, 0, strip.width, height);\n\
\x20 brush.fillStyle = ink;\n\
\x20 brush.font = fontOf(pixels, isBold);\n\
\x20 brush.textAlign = 'center';\n\
\x20 for (let byte = SPACE + 1; byte <= TILDE; byte++) {\n\
\x20   const left = (byte - SPACE) * width;\n\
\x20   brush.save();\n\
\x20   brush.beginPath();\n\
\x20   brush.rect(left, 0, width, height);\n\
\x20   brush.clip();\n\
\x20   brush.fillText(String.fromCharCode(byte), left + width / 2, base);\n\
\x20   brush.restore();\n\
\x20 }\n\
\x20 if (isUnderlined) brush.fillRect(0, Math.min(height - 1, base + Math.round(pixels * .15)), strip.width, Math.max(1, Math.round(pixels / 14)));\n\
\x20 return strip;\n\
}\n\
function paint() {\n\
\x20 isPaintDue = false;\n\
\x20 const { cells, rows, columns } = terminal, { width, height } = cell, statusRow = (rows - 1) * columns;\n\
\x20 for (let i = 0; i < cells.length; i++) {\n\
\x20   if (cells[i] === shown[i]) continue;\n\
\x20   shown[i] = cells[i];\n\
\x20   const style = i >= statusRow && cells[i] < 256 ? STATUS : cells[i] >> 8;\n\
\x20   const x = i % columns * width, y = Math.floor(i / columns) * height;\n\
\x20   pen.drawImage(strips[style] ||= stripOf(style), ((cells[i] & 255) - SPACE) * width, 0, width, height, x, y, width, height);\n\
\x20 }\n\
}\n\
function paintSoon() {\n\
\x20 if (isPaintDue) return;\n\
\x20 isPaintDue = true;\n\
\x20 requestAnimationFrame(paint);\n\
}\n\
function measure(pixels) {\n\
\x20 pen.font = fontOf(pixels);\n\
\x20 return { pixels, width: Math.max(1, Math.round(pen.measureText('M').width)), height: Math.max(2, Math.round(pixels * 1.25)) };\n\
}\n\
// As many cells as fit into the window. One with room for more than orca paints gets larger letters.\n\
function fit() {\n\
\x20 density = devicePixelRatio;\n\
\x20 const box = find('stage').getBoundingClientRect();\n\
\x20 const wide = Math.floor(box.width * density), high = Math.floor(box.height * density);\n\
\x20 let next = measure(Math.max(6, Math.round(16 * density)));\n\
\x20 while (wide / next.width >= MAX_COLUMNS + 1 || high / next.height >= MAX_ROWS + 1) next = measure(next.pixels + 1);\n\
\x20 const rows = clamp(MIN_ROWS, Math.floor(high / next.height), MAX_ROWS);\n\
\x20 const columns = clamp(MIN_COLUMNS, Math.floor(wide / next.width), MAX_COLUMNS);\n\
\x20 if (next.pixels !== cell.pixels || next.width !== cell.width) strips = {};\n\
\x20 cell = next;\n\
\x20 const isOther = rows !== terminal.rows || columns !== terminal.columns;\n\
\x20 if (isOther) terminal = new Terminal(rows, columns, terminal);\n\
\x20 screen.width = columns * cell.width;\n\
\x20 screen.height = rows * cell.height;\n\
\x20 screen.style.width = screen.width / density + 'px';\n\
\x20 screen.style.height = screen.height / density + 'px';\n\
\x20 screen.style.left = Math.max(0, (wide - screen.width) >> 1) / density + 'px';\n\
\x20 shown = new Uint16Array(rows * columns);\n\
\x20 pen.fillStyle = GROUND;\n\
\x20 pen.fillRect(0, 0, screen.width, screen.height);\n\
\x20 find('size').textContent = `${rows}x${columns}`;\n\
\x20 paint();\n\
\x20 if (isOther) send(sizeText());\n\
}\n\
// What a terminal answers when it is asked for its size. It brings the player back, and the whole picture.\n\
const sizeText = () => `\\x1b[8;${terminal.rows};${terminal.columns}t`;\n\
\n\
// ---- The connection. Keys go out and pictures come in as binary messages; text messages are sound.\n\
const MESSAGE_BYTES = 1024;\n\
const STAND = 300, RETRY = 1000;\n\
let socket = null, saying = '', noteTimer, repairTimer, lastTick = 0;\n\
function say(text, isLost) {\n\
\x20 saying = text;\n\
\x20 find('say').textContent = text;\n\
\x20 document.body.classList.toggle('lost', isLost);\n\
}\n\
// Says something for a while.\n\
function note(text) {\n\
\x20 find('say').textContent = text;\n\
\x20 clearTimeout(noteTimer);\n\
\x20 noteTimer = later(1500, () => { find('say').textContent = saying; });\n\
}\n\
function send(text) {\n\
\x20 if (socket?.readyState !== WebSocket.OPEN) return;\n\
\x20 for (let i = 0; i < text.length; i += MESSAGE_BYTES) {\n\
\x20   socket.send(Uint8Array.from(text.slice(i, i + MESSAGE_BYTES), glyph => glyph.charCodeAt(0)));\n\
\x20 }\n\
}\n\
// Asks for a whole picture (Ctrl-L), once for all that was missed in a while.\n\
function repair() {\n\
\x20 repairTimer ??= later(STAND, () => {\n\
\x20   repairTimer = undefined;\n\
\x20   send('\\f');\n\
\x20 });\n\
}\n\
function connect() {\n\
\x20 const scheme = location.protocol === 'https:' ? 'wss' : 'ws';\n\
\x20 const opened = socket = new WebSocket(`${scheme}://${location.host}/seat${location.search}`);\n\
\x20 let wasOpen = false;\n\
\x20 opened.binaryType = 'arraybuffer';\n\
\x20 opened.onopen = () => {\n\
\x20   wasOpen = true;\n\
\x20   say('connected', false);\n\
\x20   terminal.begin();\n\
\x20   // ESC ends what the last player at this seat had begun.\n\
\x20   send('\\x1b' + sizeText());\n\
\x20 };\n\
\x20 opened.onmessage = ({ data }) => typeof data === 'string' ? hear(data) : see(new Uint8Array(data));\n\
\x20 opened.onclose = () => {\n\
\x20   socket = null;\n\
\x20   silence();\n\
\x20   say(wasOpen ? 'lost: trying again' : 'no seat is free, or nobody plays here: trying again', true);\n\
\x20   later(RETRY, connect);\n\
\x20 };\n\
}\n\
function see(bytes) {\n\
\x20 terminal.take(bytes);\n\
\x20 if (terminal.isTorn) repair();\n\
\x20 terminal.isTorn = false;\n\
\x20 paintSoon();\n\
}\n\
// A page that stood still may have missed pictures, since orca gives up what is not taken.\n\
function tick() {\n\
\x20 const now = performance.now();\n\
\x20 if (!document.hidden && lastTick && now - lastTick > 100 + STAND) repair();\n\
\x20 lastTick = document.hidden ? 0 : now;\n\
\x20 if (devicePixelRatio !== density) fit();\n\
}\n\
document.addEventListener('visibilitychange', () => { if (!document.hidden) repair(); });\n\
\n\
// ---- Keys, as terminals of the kind of xterm send them.\n\
const BY_LETTER = { ArrowUp: 'A', ArrowDown: 'B', ArrowRight: 'C', ArrowLeft: 'D', Home: 'H', End: 'F' };\n\
const BY_NUMBER = { Insert: 2, Delete: 3, PageUp: 5, PageDown: 6, F6: 17, F7: 18, F8: 19, F9: 20, F10: 21 };\n\
const FIRST_FOUR = { F1: 'P', F2: 'Q', F3: 'R', F4: 'S' };\n\
const ALONE = { Tab: '\\t', Enter: '\\r', Backspace: '\\x7f', Escape: '\\x1b' };\n\
function bytesOf(press) {\n\
\x20 const { key, shift, alt, ctrl } = press;\n\
\x20 const number = 1 + (shift ? 1 : 0) + (alt ? 2 : 0) + (ctrl ? 4 : 0), isPlain = number === 1;\n\
\x20 if (key === 'Insert' && shift) return '';                 // a paste of the browser\n\
\x20 if (key === 'Tab' && shift) return '\\x1b[Z';\n\
\x20 if (BY_LETTER[key]) return `\\x1b[${isPlain ? '' : '1;' + number}${BY_LETTER[key]}`;\n\
\x20 if (BY_NUMBER[key]) return `\\x1b[${BY_NUMBER[key]}${isPlain ? '' : ';' + number}~`;\n\
\x20 if (FIRST_FOUR[key]) return isPlain ? '\\x1bO' + FIRST_FOUR[key] : `\\x1b[1;${number}${FIRST_FOUR[key]}`;\n\
\x20 if (ALONE[key]) return (alt ? '\\x1b' : '') + (key === 'Backspace' && ctrl ? '\\b' : ALONE[key]);\n\
\x20 return [...key].length === 1 ? glyphBytes(press) : '';\n\
}\n\
function glyphBytes({ key, code = '', shift, alt, ctrl, altGraph }) {\n\
\x20 if (ctrl && !altGraph && !(alt && isMac)) return controlBytes(key, code, shift, alt);\n\
\x20 if (!/[ -~]/.test(key)) {\n\
\x20   note(`${key} is no glyph`);\n\
\x20   return '';\n\
\x20 }\n\
\x20 return (alt && !altGraph && !isMac ? '\\x1b' : '') + key;\n\
}\n\
// On a layout of other letters the place of the key counts. Ctrl-Shift and a letter are the browser's.\n\
function controlBytes(key, code, shift, alt) {\n\
\x20 const glyph = !/^[a-z]$/i.test(key) && code.startsWith('Key') ? code[3] : key;\n\
\x20 const isLetter = /[a-z]/i.test(glyph);\n\
\x20 if (isLetter && shift) return '';\n\
\x20 const bytes = glyph === ' ' ? '\\0' : isLetter || '@[\\\\]^_'.includes(glyph) ? String.fromCharCode(glyph.toUpperCase().charCodeAt() & 31) : '';\n\
\x20 return bytes && (alt ? '\\x1b' : '') + bytes;\n\
}\n\
const pad = find('pad'), held = { shift: false, alt: false, ctrl: false };\n\
let isDead = false, taken = 0;\n\
// A key, with what is held on the bar, once.\n\
function press(keys) {\n\
\x20 const bytes = bytesOf({ ...keys, shift: keys.shift || held.shift, alt: keys.alt || held.alt, ctrl: keys.ctrl || held.ctrl });\n\
\x20 if (bytes || [...keys.key].length === 1) release();\n\
\x20 send(bytes);\n\
\x20 audio?.resume();\n\
\x20 return bytes;\n\
}\n\
function release() {\n\
\x20 for (const name in held) held[name] = false;\n\
\x20 for (const button of document.querySelectorAll('.held')) button.classList.remove('held');\n\
}\n\
addEventListener('keydown', event => {\n\
\x20 if (event.target.tagName === 'SELECT' || event.target.type === 'range') return;\n\
\x20 if (event.isComposing || event.key === 'Process' || event.key === 'Unidentified' || event.metaKey) return;\n\
\x20 if (event.key === 'Dead') isDead = true;\n\
\x20 if (event.key === 'Alt') event.preventDefault();          // or it opens a menu\n\
\x20 const { key, code, shiftKey: shift, altKey: alt, ctrlKey: ctrl } = event;\n\
\x20 const bytes = press({ key, code, shift, alt, ctrl, altGraph: event.getModifierState('AltGraph') });\n\
\x20 if (bytes && bytes !== '\\x03' && bytes !== '\\x18') event.preventDefault();   // a copy and a cut go to the clipboard too\n\
});\n\
// Dead keys, input methods and the keyboard of a tablet give texts in place of keys.\n\
function typeText() {\n\
\x20 for (const glyph of pad.value.slice(taken)) press({ key: glyph === '\\n' ? 'Enter' : glyph });\n\
\x20 taken = pad.value.length;\n\
}\n\
function emptyPad() {\n\
\x20 pad.value = '';\n\
\x20 taken = 0;\n\
}\n\
pad.addEventListener('input', event => {\n\
\x20 if (event.isComposing && (isDead || !isTouch)) return;\n\
\x20 typeText();\n\
\x20 if (!event.isComposing) emptyPad();\n\
});\n\
pad.addEventListener('compositionend', () => {\n\
\x20 typeText();\n\
\x20 emptyPad();\n\
\x20 isDead = false;\n\
});\n\
pad.addEventListener('beforeinput', event => {\n\
\x20 if (event.inputType === 'deleteContentBackward' && !pad.value) press({ key: 'Backspace' });\n\
});\n\
// A text is sent as terminals send one that is pasted. What is no glyph becomes a dot, and controls are dropped.\n\
addEventListener('paste', event => {\n\
\x20 event.preventDefault();\n\
\x20 const text = event.clipboardData.getData('text/plain').replace(/\\r?\\n/g, '\\r');\n\
\x20 const glyphs = text.replace(/[^\\r\\t -~]/gu, glyph => glyph < ' ' ? '' : '.');\n\
\x20 if (glyphs) send(`\\x1b[200~${glyphs}\\x1b[201~`);\n\
});\n\
// The selection: the cells in reverse video above the status row.\n\
function selectedText() {\n\
\x20 const { cells, rows, columns } = terminal, lines = [];\n\
\x20 for (let y = 0; y < rows - 1; y++) {\n\
\x20   const row = [...cells.subarray(y * columns, (y + 1) * columns)].filter(cell => cell >> 8 === 7);\n\
\x20   if (row.length) lines.push(String.fromCharCode(...row.map(cell => cell & 255)));\n\
\x20 }\n\
\x20 return lines.join('\\n');\n\
}\n\
for (const name of ['copy', 'cut']) {\n\
\x20 addEventListener(name, event => {\n\
\x20   event.preventDefault();\n\
\x20   event.clipboardData.setData('text/plain', selectedText());\n\
\x20 });\n\
}\n\
\n\
// ---- The mouse and fingers, as SGR reports. Two fingers turn the wheel.\n\
const stage = find('stage'), fingers = new Map(), MOVED = 32, WHEEL_UP = 64, WHEEL_DOWN = 65;\n\
let turned = 0, lastPlace = '';\n\
function report(button, event, end = 'M') {\n\
\x20 const box = screen.getBoundingClientRect(), { rows, columns } = terminal;\n\
\x20 const x = clamp(1, Math.floor((event.clientX - box.left) / box.width * columns) + 1, columns);\n\
\x20 const y = clamp(1, Math.floor((event.clientY - box.top) / box.height * rows) + 1, rows);\n\
\x20 const place = `${x};${y}`;\n\
\x20 if (button !== MOVED || place !== lastPlace) send(`\\x1b[<${button};${place}${end}`);\n\
\x20 lastPlace = place;\n\
}\n\
function turn(by, step, event) {\n\
\x20 if (Math.sign(by) !== Math.sign(turned)) turned = 0;\n\
\x20 for (turned += by; Math.abs(turned) >= step; turned -= Math.sign(turned) * step) report(turned < 0 ? WHEEL_UP : WHEEL_DOWN, event);\n\
}\n\
stage.addEventListener('pointerdown', event => {\n\
\x20 event.preventDefault();\n\
\x20 pad.focus({ preventScroll: true });\n\
\x20 audio?.resume();\n\
\x20 stayAwake();\n\
\x20 if (event.pointerType === 'touch') fingers.set(event.pointerId, event.clientY);\n\
\x20 if (fingers.size > 1 || event.button > 2) return;\n\
\x20 stage.setPointerCapture(event.pointerId);\n\
\x20 report(event.button, event);\n\
});\n\
stage.addEventListener('pointermove', event => {\n\
\x20 if (fingers.size > 1 && fingers.has(event.pointerId)) {\n\
\x20   turn((fingers.get(event.pointerId) - event.clientY) / 2, 60, event);\n\
\x20   fingers.set(event.pointerId, event.clientY);\n\
\x20 } else if (event.buttons & 1) {\n\
\x20   report(MOVED, event);\n\
\x20 }\n\
});\n\
for (const name of ['pointerup', 'pointercancel']) {\n\
\x20 stage.addEventListener(name, event => {\n\
\x20   const isOne = fingers.size < 2;\n\
\x20   fingers.delete(event.pointerId);\n\
\x20   if (isOne && event.button <= 2) report(Math.max(0, event.button), event, 'm');\n\
\x20 });\n\
}\n\
stage.addEventListener('wheel', event => {\n\
\x20 if (event.ctrlKey) return;                                // the browser's zoom\n\
\x20 event.preventDefault();\n\
\x20 turn(event.deltaMode ? event.deltaY * 40 : event.deltaY, 100, event);\n\
}, { passive: false });\n\
for (const name of ['contextmenu', 'mousedown']) stage.addEventListener(name, event => event.preventDefault());\n\
\n\
// ---- The bar of keys, for glass.\n\
const MOVES = [\n\
\x20 ['esc', 'Escape'], ['tab', 'Tab'], ['ctrl'], ['alt'], ['shift'], ['\xe2\x86\x90', 'ArrowLeft'], ['\xe2\x86\x91', 'ArrowUp'], ['\xe2\x86\x93', 'ArrowDown'],\n\
\x20 ['\xe2\x86\x92', 'ArrowRight'], ['\xe2\x8c\xab', 'Backspace'], ['play', ' '], ['undo', '^z'], ['copy', '^c'], ['cut', '^x'], ['paste', '^v'],\n\
\x20 ['home', 'Home'], ['end', 'End'], ['pg\xe2\x86\x91', 'PageUp'], ['pg\xe2\x86\x93', 'PageDown'], ['del', 'Delete'], ['fill', '^k'], ['all', '^a'],\n\
\x20 ['guide', '^g'], ['save', '^s'], ['-1', 'F7'], ['+1', 'F8'], ['quit', '^q'],\n\
];\n\
const GLYPHS = '.*#:%!?;=ABCDEFGHIJKLMNOPQRSTUVWXYZ0123456789abcdefghijklmnopqrstuvwxyz';\n\
function addButton(row, name, key) {\n\
\x20 const button = document.createElement('button');\n\
\x20 button.textContent = name;\n\
\x20 button.tabIndex = -1;\n\
\x20 if (name in held) button.onclick = () => button.classList.toggle('held', held[name] = !held[name]);\n\
\x20 else if (/^Arrow|Backspace/.test(key)) repeat(button, key);\n\
\x20 else button.onclick = () => pressNamed(name, key);\n\
\x20 button.addEventListener('pointerdown', event => { if (event.pointerType === 'mouse') event.preventDefault(); });\n\
\x20 row.append(button);\n\
}\n\
function pressNamed(name, key) {\n\
\x20 if (name === 'quit' && !confirm('Leave the piece? Who leads it ends it for all.')) return;\n\
\x20 press(key.length === 2 && key[0] === '^' ? { key: key[1], ctrl: true } : { key });\n\
}\n\
function repeat(button, key) {\n\
\x20 let timer;\n\
\x20 const again = wait => {\n\
\x20   press({ key });\n\
\x20   timer = later(wait, () => again(60));\n\
\x20 };\n\
\x20 button.onpointerdown = event => {\n\
\x20   event.preventDefault();\n\
\x20   again(400);\n\
\x20 };\n\
\x20 button.onpointerup = button.onpointercancel = button.onpointerleave = () => clearTimeout(timer);\n\
}\n\
for (const [name, key] of MOVES) addButton(find('moves'), name, key);\n\
for (const glyph of GLYPHS) addButton(find('glyphs'), glyph, glyph);\n\
find('keys').onclick = () => document.body.classList.toggle('keys');\n\
find('soft').onclick = () => {\n\
\x20 pad.inputMode = pad.inputMode === 'none' ? 'text' : 'none';\n\
\x20 pad.blur();\n\
};\n\
find('full').onclick = async () => {\n\
\x20 if (document.fullscreenElement) return document.exitFullscreen();\n\
\x20 await document.documentElement.requestFullscreen({ navigationUI: 'hide' });\n\
\x20 await navigator.keyboard?.lock?.().catch(() => {});       // then Escape, Ctrl-W, Ctrl-T and Ctrl-N come too\n\
};\n\
let wakeLock;\n\
async function stayAwake() {\n\
\x20 if (wakeLock && !wakeLock.released) return;\n\
\x20 wakeLock = await navigator.wakeLock?.request('screen').catch(() => undefined);\n\
}\n\
addEventListener('beforeunload', event => { if (socket?.readyState === WebSocket.OPEN) event.preventDefault(); });\n\
addEventListener('focus', () => pad.focus({ preventScroll: true }));\n\
addEventListener('click', event => { if (event.target.tagName === 'BUTTON') pad.focus({ preventScroll: true }); });\n\
\n\
// ---- MIDI: whole messages from bytes (MIDI 1.0). Running status counts; real time may come inside a message; system\n\
// exclusive messages are dropped.\n\
class Parser {\n\
\x20 constructor(give) {\n\
\x20   this.give = give;\n\
\x20   this.reset();\n\
\x20 }\n\
\x20 reset() {\n\
\x20   this.status = 0;\n\
\x20   this.data = [];\n\
\x20 }\n\
\x20 byte(b) {\n\
\x20   if (b >= 0xf8) {\n\
\x20     this.give([b]);\n\
\x20   } else if (b >= 0x80) {\n\
\x20     this.reset();\n\
\x20     if (b === 0xf6) this.give([b]);\n\
\x20     else if (b < 0xf0 || this.lengthOf(b)) this.status = b;\n\
\x20   } else if (this.status && this.data.push(b) === this.lengthOf(this.status)) {\n\
\x20     this.give([this.status, ...this.data]);\n\
\x20     this.data = [];\n\
\x20     if (this.status >= 0xf0) this.status = 0;\n\
\x20   }\n\
\x20 }\n\
\x20 // How many data bytes follow a status.\n\
\x20 lengthOf(status) {\n\
\x20   if (status >= 0xf0) return { 0xf1: 1, 0xf2: 2, 0xf3: 1 }[status];\n\
\x20   return (status & 0xe0) === 0xc0 ? 1 : 2;\n\
\x20 }\n\
}\n\
\n\
// ---- The synthesizer. Of each sound: its waves, each with its step in cents and how loud it is; attack, decay, sustain\n\
// and release; the filter in multiples of the key's frequency, at the start and after the decay.\n\
const SOUNDS = {\n\
\x20 pluck: { waves: [['sawtooth', -3, .5], ['triangle', 3, .5]], envelope: [.003, .35, .25, .15], filter: [12, 2.5] },\n\
\x20 pad: { waves: [['sawtooth', -7, .2], ['sawtooth', 7, .2], ['triangle', -1200, .08]], envelope: [.12, .6, .8, .5], filter: [2, 5] },\n\
\x20 bass: { waves: [['square', 0, .3], ['sine', -1200, .25]], envelope: [.004, .25, .55, .08], filter: [9, 3] },\n\
\x20 lead: { waves: [['square', -4, .2], ['sawtooth', 4, .2]], envelope: [.01, .2, .7, .12], filter: [7, 5] },\n\
\x20 bell: { waves: [['sine', 0, .4], ['sine', 1902, .12], ['sine', 2786, .1]], envelope: [.002, 1.2, .08, .8], filter: [20, 20] },\n\
\x20 organ: { waves: [['sine', 0, .3], ['sine', 1200, .15], ['sine', 1902, .08]], envelope: [.01, .1, .9, .06], filter: [20, 20] },\n\
};\n\
const BY_CHANNEL = [\n\
\x20 'pluck', 'pad', 'pluck', 'lead', 'bell', 'organ', 'pad', 'bass', 'bass', 'drums', 'pluck', 'lead', 'bell', 'organ', 'pad', 'bass',\n\
];\n\
const DRUM_CHANNEL = 9, MAX_VOICES = 64, BEND_CENTS = 200;\n\
// Of the drums of General MIDI, by key: how high and how long the noise is, and the sine: from, to and how long.\n\
const DRUMS = {\n\
\x20 35: [0, 0, 140, 42, .3], 36: [0, 0, 170, 46, .28], 37: [2500, .03, 420, 400, .04], 38: [1800, .16, 220, 150, .1],\n\
\x20 39: [1300, .14, 0, 0, 0], 40: [2400, .14, 260, 170, .08], 42: [8000, .05, 0, 0, 0], 44: [7000, .07, 0, 0, 0],\n\
\x20 46: [7500, .35, 0, 0, 0], 49: [5000, 1.1, 0, 0, 0], 51: [6500, .7, 0, 0, 0], 54: [9000, .12, 0, 0, 0],\n\
\x20 56: [0, 0, 560, 540, .15], 57: [4500, 1.2, 0, 0, 0], 69: [6000, .05, 0, 0, 0], 70: [6500, .06, 0, 0, 0],\n\
\x20 75: [0, 0, 1900, 1850, .05], 76: [0, 0, 900, 860, .07], 77: [0, 0, 640, 610, .08], 82: [7000, .06, 0, 0, 0],\n\
};\n\
// A drum that has no row is a tom, the higher the key the higher.\n\
const drumOf = key => DRUMS[key] || [0, 0, 60 * 2 ** ((key - 30) / 14), 40 * 2 ** ((key - 30) / 14), .25];\n\
class Synth {\n\
\x20 constructor(context) {\n\
\x20   this.context = context;\n\
\x20   this.voices = [];\n\
\x20   this.level = new GainNode(context, { gain: .7 });\n\
\x20   const limiter = new DynamicsCompressorNode(context, { threshold: -10, knee: 8, ratio: 12, attack: .002, release: .12 });\n\
\x20   this.level.connect(limiter).connect(context.destination);\n\
\x20   this.noise = context.createBuffer(1, context.sampleRate, context.sampleRate);\n\
\x20   this.noise.copyToChannel(Float32Array.from({ length: context.sampleRate }, () => Math.random() * 2 - 1), 0);\n\
\x20   const wobble = new OscillatorNode(context, { frequency: 5.5 });\n\
\x20   wobble.start();\n\
\x20   this.channels = BY_CHANNEL.map(sound => this.channelOf(sound, wobble));\n\
\x20 }\n\
\x20 channelOf(sound, wobble) {\n\
\x20   const { context } = this;\n\
\x20   const gain = new GainNode(context, { gain: .62 }), pan = new StereoPannerNode(context);\n\
\x20   const bend = new ConstantSourceNode(context, { offset: 0 }), wheel = new GainNode(context, { gain: 0 });\n\
\x20   gain.connect(pan).connect(this.level);\n\
\x20   bend.start();\n\
\x20   wobble.connect(wheel);\n\
\x20   return { sound, gain, pan, bend, wheel, hasPedal: false };\n\
\x20 }\n\
\x20 give([status, first, second]) {\n\
\x20   const kind = status & 0xf0, number = status & 15, channel = this.channels[number], now = this.context.currentTime;\n\
\x20   if (kind === 0x90 && second) this.start(number, first, second / 127, now);\n\
\x20   else if (kind === 0x80 || kind === 0x90) this.stop(voice => voice.number === number && voice.key === first && !voice.isKept, now, channel.hasPedal);\n\
\x20   else if (kind === 0xe0) channel.bend.offset.setTargetAtTime((first + 128 * second - 8192) / 8192 * BEND_CENTS, now, .004);\n\
\x20   else if (kind === 0xb0) this.control(number, first, second, now);\n\
\x20 }\n\
\x20 control(number, controller, value, now) {\n\
\x20   const channel = this.channels[number];\n\
\x20   if (controller === 1) channel.wheel.gain.setTargetAtTime(value / 127 * 50, now, .01);\n\
\x20   else if (controller === 7) channel.gain.gain.setTargetAtTime((value / 127) ** 2, now, .01);\n\
\x20   else if (controller === 10) channel.pan.pan.setTargetAtTime(clamp(-1, (value - 64) / 63, 1), now, .01);\n\
\x20   else if (controller === 64) this.pedal(number, value >= 64, now);\n\
\x20   else if (controller === 120 || controller === 123) this.stop(voice => voice.number === number, now);\n\
\x20 }\n\
\x20 pedal(number, isDown, now) {\n\
\x20   this.channels[number].hasPedal = isDown;\n\
\x20   if (!isDown) this.stop(voice => voice.number === number && voice.isKept, now);\n\
\x20 }\n\
\x20 start(number, key, force, now) {\n\
\x20   this.stop(voice => voice.number === number && voice.key === key, now);\n\
\x20   if (this.voices.length >= MAX_VOICES) this.voices[0].end(now, .02);\n\
\x20   if (number === DRUM_CHANNEL) this.drum(key, force, now);\n\
\x20   else this.tone(number, key, force, now);\n\
\x20 }\n\
\x20 tone(number, key, force, now) {\n\
\x20   const { context } = this, channel = this.channels[number], hertz = 440 * 2 ** ((key - 69) / 12), top = context.sampleRate / 2.2;\n\
\x20   const { waves, envelope: [attack, decay, sustain, release], filter: [open, rest] } = SOUNDS[channel.sound];\n\
\x20   const filter = new BiquadFilterNode(context, { type: 'lowpass', Q: 1, frequency: Math.min(top, hertz * open * (.4 + .6 * force)) });\n\
\x20   filter.frequency.setTargetAtTime(Math.min(top, hertz * rest), now + attack, decay / 2);\n\
\x20   const envelope = new GainNode(context, { gain: 0 }), peak = force ** 1.5;\n\
\x20   envelope.gain.setValueAtTime(0, now);\n\
\x20   envelope.gain.linearRampToValueAtTime(peak, now + attack);\n\
\x20   envelope.gain.setTargetAtTime(peak * sustain, now + attack, decay / 3);\n\
\x20   filter.connect(envelope).connect(channel.gain);\n\
\x20   const sources = waves.map(([type, detune, loud]) => {\n\
\x20     const source = new OscillatorNode(context, { type, frequency: hertz, detune });\n\
\x20     channel.bend.connect(source.detune);\n\
\x20     channel.wheel.connect(source.detune);\n\
\x20     source.connect(new GainNode(context, { gain: loud })).connect(filter);\n\
\x20     source.start(now);\n\
\x20     return source;\n\
\x20   });\n\
\x20   this.keep({ number, key, sources, envelope, release }, channel);\n\
\x20 }\n\
\x20 keep(voice, { bend, wheel }) {\n\
\x20   const { sources, envelope } = voice;\n\
\x20   voice.end = (at, release = voice.release) => {\n\
\x20     envelope.gain.cancelScheduledValues(at);\n\
\x20     envelope.gain.setTargetAtTime(0, at, release / 4);\n\
\x20     for (const source of sources) source.stop(at + release * 1.6 + .02);\n\
\x20     this.voices = this.voices.filter(other => other !== voice);\n\
\x20   };\n\
\x20   sources[0].onended = () => {\n\
\x20     for (const source of sources) {\n\
\x20       bend.disconnect(source.detune);\n\
\x20       wheel.disconnect(source.detune);\n\
\x20     }\n\
\x20     envelope.disconnect();\n\
\x20   };\n\
\x20   this.voices.push(voice);\n\
\x20 }\n\
\x20 drum(key, force, now) {\n\
\x20   const { context } = this, [high, hiss, from, to, beat] = drumOf(key);\n\
\x20   const out = new GainNode(context, { gain: force ** 1.5 }), last = now + Math.max(hiss, beat) + .05;\n\
\x20   out.connect(this.channels[DRUM_CHANNEL].gain);\n\
\x20   const part = (source, through, loud, long) => {\n\
\x20     const gain = new GainNode(context, { gain: 0 });\n\
\x20     gain.gain.setValueAtTime(loud, now);\n\
\x20     gain.gain.exponentialRampToValueAtTime(.001, now + long);\n\
\x20     gain.gain.linearRampToValueAtTime(0, last);\n\
\x20     through.connect(gain).connect(out);\n\
\x20     source.start(now);\n\
\x20     source.stop(last);\n\
\x20     source.onended = () => gain.disconnect();\n\
\x20   };\n\
\x20   if (hiss) {\n\
\x20     const source = new AudioBufferSourceNode(context, { buffer: this.noise, loop: true });\n\
\x20     part(source, source.connect(new BiquadFilterNode(context, { type: 'highpass', frequency: high })), .6, hiss);\n\
\x20   }\n\
\x20   if (beat) {\n\
\x20     const source = new OscillatorNode(context, { frequency: from });\n\
\x20     source.frequency.setValueAtTime(from, now);\n\
\x20     source.frequency.exponentialRampToValueAtTime(to, now + beat / 2);\n\
\x20     part(source, source, 1.1, beat);\n\
\x20   }\n\
\x20   later(1000 * (last - now) + 100, () => out.disconnect());\n\
\x20 }\n\
\x20 // Ends the voices that pass, or keeps them until the pedal is let go.\n\
\x20 stop(passes, now, hasPedal) {\n\
\x20   for (const voice of this.voices.filter(passes)) {\n\
\x20     if (hasPedal) voice.isKept = true;\n\
\x20     else voice.end(now);\n\
\x20   }\n\
\x20 }\n\
}\n\
\n\
// ---- The output of sound that is chosen: none, the synthesizer, or a MIDI port. Notes end where it changes.\n\
let audio, synth, output = null, ports = [], wereAsked = false;\n\
const out = find('out'), level = find('level'), sounding = new Set();\n\
const midi = new Parser(message => {\n\
\x20 const [status, key, force] = message, kind = status & 0xf0, voice = (status & 15) << 7 | key;\n\
\x20 if (kind === 0x90 && force) sounding.add(voice);\n\
\x20 else if (kind === 0x80 || kind === 0x90) sounding.delete(voice);\n\
\x20 output?.(message);\n\
});\n\
// A message of sound is two hexadecimal digits a byte. Any other one tells that some was given up.\n\
function hear(text) {\n\
\x20 if (!/^([0-9a-f]{2})+$/.test(text)) return silence();\n\
\x20 for (let i = 0; i < text.length; i += 2) midi.byte(parseInt(text.slice(i, i + 2), 16));\n\
}\n\
// Ends all notes: each that sounds, and then by All Notes Off, which not every device heeds.\n\
function silence() {\n\
\x20 for (const voice of sounding) output?.([0x80 | voice >> 7, voice & 127, 0]);\n\
\x20 for (let channel = 0; channel < 16; channel++) output?.([0xb0 | channel, 123, 0]);\n\
\x20 sounding.clear();\n\
\x20 midi.reset();\n\
}\n\
function choose(name) {\n\
\x20 silence();\n\
\x20 const port = ports.find(port => port.name === name);\n\
\x20 if (name === 'synth' && !synth) {\n\
\x20   audio = new AudioContext({ latencyHint: 'interactive' });\n\
\x20   synth = new Synth(audio);\n\
\x20   synth.level.gain.value = level.value;\n\
\x20 }\n\
\x20 audio?.resume();\n\
\x20 output = name === 'synth' ? message => synth.give(message) : port ? message => port.send(message) : null;\n\
}\n\
function listOutputs() {\n\
\x20 const chosen = out.value, choices = [['none', 'none'], ['synth', 'this page'], ...ports.map(port => [port.name, port.name])];\n\
\x20 if (navigator.requestMIDIAccess && !wereAsked) choices.push(['ask', 'MIDI ports ...']);\n\
\x20 out.replaceChildren(...choices.map(([value, text]) => new Option(text, value)));\n\
\x20 out.value = choices.some(([value]) => value === chosen) ? chosen : 'none';\n\
}\n\
// A browser gives MIDI ports to a page of this machine alone (localhost), or over https.\n\
async function askForPorts() {\n\
\x20 const access = await navigator.requestMIDIAccess().catch(() => note('the browser gives no MIDI ports'));\n\
\x20 const list = () => {\n\
\x20   ports = access ? [...access.outputs.values()] : [];\n\
\x20   listOutputs();\n\
\x20 };\n\
\x20 wereAsked = true;\n\
\x20 list();\n\
\x20 if (access) access.onstatechange = list;\n\
}\n\
out.onchange = async () => {\n\
\x20 if (out.value === 'ask') {\n\
\x20   out.value = 'none';\n\
\x20   await askForPorts();\n\
\x20 }\n\
\x20 choose(out.value);\n\
\x20 pad.focus();\n\
};\n\
level.oninput = () => { if (synth) synth.level.gain.value = level.value; };\n\
level.onchange = () => pad.focus();\n\
\n\
document.body.classList.toggle('keys', isTouch);\n\
listOutputs();\n\
fit();\n\
new ResizeObserver(fit).observe(stage);\n\
setInterval(tick, 100);\n\
connect();\n\
stayAwake();\n\
pad.focus();\n\
</script>\n\
</html>\n\
";
