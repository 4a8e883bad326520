//! Replies of which one byte is changed, and what a client's call answers then.
use crate::sessions::text_of_talk;
use crate::texts::put;
use crate::words::wire_of;
use sequence::ByteList;
use std::alloc::Global;
use std::process::Abort;
use test_support::texts::cut;

/// A call, the bits of a byte that are changed (the lowest one, or all), and what the server sends; then positions, each with what the call answers where the byte there is
/// changed, or one behind it and before the next line's position. A fault at the position of the change is one `here`. `#` parts the replies.
const CHANGES: &str = "ping : low : ACK 53 :
0 nack
1 truncated at 17
2 begun not return at 15
3 begun ok
16 begun not return here
# ping : all : ACK 53 :
0 not return here
1 truncated at 17
3 begun ok
16 begun not return here
# lookup : low : ACK NORMAL ECHO PROXY LIVE 01 78 :
0 nack
1 begun not return at 272
2 begun not return at 15
3 begun 127.0.0.1 1099 16:7/9/0 flagged
16 begun not return here
17 begun bad stream bad magic here
21 begun bad stream missing block here
22 begun bad stream bad code at 37
23 begun bad kind here
24 begun 127.0.0.1 1099 16:7/9/0 flagged
38 begun truncated at 320
39 begun bad stream bad code here
40 begun too large nodes at 39
41 begun truncated at 320
44 begun bad stream bad utf at 61
45 begun truncated at 320
46 begun 127.0.0.1 1099 16:7/9/0 flagged
61 begun truncated at 320
62 begun bad stream bad code at 73
63 begun 127.0.0.1 1099 16:7/9/0 flagged
74 begun bad stream bad handle here
75 begun bad stream reset here
76 begun bad stream bad code here
77 begun truncated at 320
78 begun bad stream bad desc at 76
79 begun wrong shape at 320
102 begun 127.0.0.1 1099 16:7/9/0 flagged
110 begun truncated at 320
111 begun bad stream bad desc at 76
112 begun bad stream bad code at 113
113 begun bad stream bad desc at 76
114 begun truncated at 320
115 begun bad stream bad code at 116
116 begun wrong shape at 320
117 begun bad stream bad code here
118 begun truncated at 320
119 begun bad stream bad desc at 76
121 begun 127.0.0.1 1099 16:7/9/0 flagged
156 begun bad stream bad desc at 76
157 begun bad stream bad handle here
158 begun bad stream reset here
159 begun bad stream bad handle here
160 begun truncated at 320
161 begun bad stream bad code here
162 begun truncated at 320
163 begun bad stream bad desc at 161
164 begun wrong shape at 320
209 begun 127.0.0.1 1099 16:7/9/0 flagged
217 begun truncated at 320
218 begun bad stream bad desc at 161
220 begun bad stream bad handle here
221 begun bad stream reset here
222 begun bad stream bad code here
223 begun truncated at 320
224 begun bad stream bad utf at 253
225 begun wrong shape at 320
253 begun 127.0.0.1 1099 16:7/9/0 flagged
261 begun wrong shape at 267
262 begun bad stream bad desc at 222
264 begun bad stream bad handle here
265 begun bad stream reset here
266 begun bad stream bad handle here
267 begun bad stream bad code at 268
268 begun truncated at 320
269 begun wrong shape at 320
283 begun 027.0.0.1 1099 16:7/9/0 flagged
284 begun 137.0.0.1 1099 16:7/9/0 flagged
285 begun 126.0.0.1 1099 16:7/9/0 flagged
286 begun 127/0.0.1 1099 16:7/9/0 flagged
287 begun 127.1.0.1 1099 16:7/9/0 flagged
288 begun 127.0/0.1 1099 16:7/9/0 flagged
289 begun 127.0.1.1 1099 16:7/9/0 flagged
290 begun 127.0.0/1 1099 16:7/9/0 flagged
291 begun 127.0.0.0 1099 16:7/9/0 flagged
292 begun 127.0.0.1 16778315 16:7/9/0 flagged
293 begun 127.0.0.1 66635 16:7/9/0 flagged
294 begun 127.0.0.1 1355 16:7/9/0 flagged
295 begun 127.0.0.1 1098 16:7/9/0 flagged
296 begun 127.0.0.1 1099 72057594037927952:7/9/0 flagged
297 begun 127.0.0.1 1099 281474976710672:7/9/0 flagged
298 begun 127.0.0.1 1099 1099511627792:7/9/0 flagged
299 begun 127.0.0.1 1099 4294967312:7/9/0 flagged
300 begun 127.0.0.1 1099 16777232:7/9/0 flagged
301 begun 127.0.0.1 1099 65552:7/9/0 flagged
302 begun 127.0.0.1 1099 272:7/9/0 flagged
303 begun 127.0.0.1 1099 17:7/9/0 flagged
304 begun 127.0.0.1 1099 16:16777223/9/0 flagged
305 begun 127.0.0.1 1099 16:65543/9/0 flagged
306 begun 127.0.0.1 1099 16:263/9/0 flagged
307 begun 127.0.0.1 1099 16:6/9/0 flagged
308 begun 127.0.0.1 1099 16:7/72057594037927945/0 flagged
309 begun 127.0.0.1 1099 16:7/281474976710665/0 flagged
310 begun 127.0.0.1 1099 16:7/1099511627785/0 flagged
311 begun 127.0.0.1 1099 16:7/4294967305/0 flagged
312 begun 127.0.0.1 1099 16:7/16777225/0 flagged
313 begun 127.0.0.1 1099 16:7/65545/0 flagged
314 begun 127.0.0.1 1099 16:7/265/0 flagged
315 begun 127.0.0.1 1099 16:7/8/0 flagged
316 begun 127.0.0.1 1099 16:7/9/256 flagged
317 begun 127.0.0.1 1099 16:7/9/1 flagged
318 begun 127.0.0.1 1099 16:7/9/0
319 begun bad stream reset here
# lookup : all : ACK NORMAL ECHO PROXY LIVE 01 78 :
0 not return here
1 truncated at 320
2 begun not return at 253
3 begun 127.0.0.1 1099 16:7/9/0 flagged
16 begun not return here
17 begun bad stream bad magic here
21 begun bad stream bad code here
22 begun bad stream block left at 38
23 begun bad kind here
24 begun 127.0.0.1 1099 16:7/9/0 flagged
38 begun bad stream bad code here
40 begun bad stream negative length here
41 begun too large nodes at 39
42 begun truncated at 320
45 begun bad stream bad utf at 61
46 begun bad stream bad utf here
61 begun truncated at 320
62 begun bad stream bad utf at 77
63 begun bad stream bad utf here
74 begun bad stream bad code here
77 begun truncated at 320
78 begun bad stream bad utf at 102
79 begun bad stream bad utf here
102 begun 127.0.0.1 1099 16:7/9/0 flagged
110 begun bad stream bad desc at 76
111 begun bad stream negative length here
112 begun bad stream bad desc at 76
114 begun truncated at 320
116 begun bad stream bad utf here
117 begun bad stream bad code here
118 begun truncated at 320
120 begun bad stream bad utf here
157 begun bad stream bad code here
162 begun truncated at 320
164 begun bad stream bad utf here
209 begun 127.0.0.1 1099 16:7/9/0 flagged
217 begun bad stream bad desc at 161
218 begun bad stream negative length here
219 begun bad stream bad desc at 161
220 begun bad stream bad code here
223 begun truncated at 320
225 begun bad stream bad utf here
253 begun 127.0.0.1 1099 16:7/9/0 flagged
261 begun bad stream bad desc at 222
262 begun bad stream negative length here
263 begun bad stream bad desc at 222
264 begun bad stream bad code here
268 begun truncated at 320
269 begun wrong shape at 320
292 begun 127.0.0.1 -16776117 16:7/9/0 flagged
293 begun 127.0.0.1 16712779 16:7/9/0 flagged
294 begun 127.0.0.1 64331 16:7/9/0 flagged
295 begun 127.0.0.1 1204 16:7/9/0 flagged
296 begun 127.0.0.1 1099 -72057594037927920:7/9/0 flagged
297 begun 127.0.0.1 1099 71776119061217296:7/9/0 flagged
298 begun 127.0.0.1 1099 280375465082896:7/9/0 flagged
299 begun 127.0.0.1 1099 1095216660496:7/9/0 flagged
300 begun 127.0.0.1 1099 4278190096:7/9/0 flagged
301 begun 127.0.0.1 1099 16711696:7/9/0 flagged
302 begun 127.0.0.1 1099 65296:7/9/0 flagged
303 begun 127.0.0.1 1099 239:7/9/0 flagged
304 begun 127.0.0.1 1099 16:-16777209/9/0 flagged
305 begun 127.0.0.1 1099 16:16711687/9/0 flagged
306 begun 127.0.0.1 1099 16:65287/9/0 flagged
307 begun 127.0.0.1 1099 16:248/9/0 flagged
308 begun 127.0.0.1 1099 16:7/-72057594037927927/0 flagged
309 begun 127.0.0.1 1099 16:7/71776119061217289/0 flagged
310 begun 127.0.0.1 1099 16:7/280375465082889/0 flagged
311 begun 127.0.0.1 1099 16:7/1095216660489/0 flagged
312 begun 127.0.0.1 1099 16:7/4278190089/0 flagged
313 begun 127.0.0.1 1099 16:7/16711689/0 flagged
314 begun 127.0.0.1 1099 16:7/65289/0 flagged
315 begun 127.0.0.1 1099 16:7/246/0 flagged
316 begun 127.0.0.1 1099 16:7/9/-256 flagged
317 begun 127.0.0.1 1099 16:7/9/255 flagged
318 begun 127.0.0.1 1099 16:7/9/0 flagged
319 begun bad stream bad code here
# list : low : ACK NORMAL STRINGS 00000002 74 =echo 71 007E0002 :
0 nack
1 truncated at 91
2 begun not return at 15
3 begun 2 names echo
16 begun not return here
17 begun bad stream bad magic here
21 begun bad stream missing block here
22 begun bad stream bad code at 37
23 begun bad kind here
24 begun 2 names echo
38 begun truncated at 91
39 begun bad stream bad code here
40 begun truncated at 91
41 begun bad stream bad desc at 39
42 begun bad stream bad desc at 38
44 begun wrong shape at 91
60 begun bad stream bad desc at 38
61 begun 2 names echo
70 begun bad stream bad desc at 39
72 begun bad stream bad handle here
73 begun bad stream reset here
74 begun bad stream bad handle here
75 begun too large nodes at 38
76 begun truncated at 91
79 begun bad stream bad code at 80
80 begun truncated at 91
81 begun bad stream bad code at 87
82 begun 2 names dcho
83 begun 2 names ebho
84 begun 2 names ecio
85 begun 2 names echn
86 begun wrong shape at 87
87 begun bad stream bad handle at 86
# list : all : ACK NORMAL STRINGS 00000002 74 =echo 71 007E0002 :
0 not return here
1 truncated at 91
3 begun 2 names echo
16 begun not return here
17 begun bad stream bad magic here
21 begun bad stream bad code here
22 begun bad stream block left at 38
23 begun bad kind here
24 begun 2 names echo
38 begun bad stream bad code here
40 begun truncated at 91
42 begun bad stream bad utf here
61 begun 2 names echo
69 begun bad stream bad desc at 39
70 begun bad stream negative length here
71 begun bad stream bad desc at 39
72 begun bad stream bad code here
75 begun bad stream negative length here
76 begun too large nodes at 38
77 begun truncated at 91
79 begun bad stream bad code here
80 begun truncated at 91
82 begun bad stream bad utf here
86 begun bad stream bad code here
87 begun bad stream bad handle at 86
# dirty : low : ACK NORMAL LEASE 00000000000927C0 HOLDER :
0 nack
1 begun not return at 272
2 begun not return at 15
3 begun granted 600000
16 begun not return here
17 begun bad stream bad magic here
21 begun bad stream missing block here
22 begun bad stream bad code at 37
23 begun bad kind here
24 begun granted 600000
38 begun truncated at 303
39 begun bad stream bad code here
40 begun truncated at 303
41 begun bad stream bad utf at 60
42 begun wrong shape at 303
60 begun granted 600000
68 begun truncated at 303
69 begun bad stream bad desc at 39
72 begun truncated at 303
73 begun bad stream bad desc at 39
74 begun wrong shape at 303
79 begun bad stream bad desc at 39
80 begun truncated at 303
81 begun bad stream bad code at 87
82 begun wrong shape at 303
86 begun bad stream bad code here
87 begun truncated at 303
88 begun bad stream bad desc at 39
90 begun granted 600000
107 begun bad stream bad desc at 39
108 begun bad stream bad handle here
109 begun bad stream reset here
110 begun bad stream bad handle here
111 begun granted 1099511627776
114 begun granted 4295567296
115 begun granted 17377216
116 begun granted 534464
117 begun granted 599744
118 begun granted 600001
119 begun truncated at 303
120 begun bad stream bad code here
121 begun truncated at 303
122 begun bad stream bad desc at 120
123 begun wrong shape at 303
140 begun granted 600000
148 begun truncated at 303
149 begun bad stream bad desc at 120
152 begun truncated at 303
153 begun bad stream bad code at 159
154 begun wrong shape at 303
158 begun bad stream bad code here
159 begun truncated at 303
160 begun bad stream bad desc at 120
162 begun granted 600000
163 begun bad stream bad desc at 120
164 begun truncated at 303
165 begun bad stream bad code at 168
166 begun wrong shape at 303
169 begun bad stream bad code here
170 begun truncated at 303
171 begun bad stream bad desc at 120
173 begun granted 600000
192 begun bad stream bad desc at 120
193 begun bad stream bad handle here
194 begun bad stream reset here
195 begun bad stream bad handle here
196 begun truncated at 303
197 begun bad stream bad code here
198 begun truncated at 303
199 begun bad stream bad utf at 202
200 begun bad stream bad desc at 196
201 begun bad stream bad code at 236
202 begun granted 600000
211 begun bad stream bad desc at 197
213 begun bad stream bad handle here
214 begun bad stream reset here
215 begun bad stream bad handle here
216 begun truncated at 303
219 begun wrong shape at 289
220 begun granted 600000
228 begun truncated at 303
229 begun bad stream bad code here
230 begun truncated at 303
231 begun bad stream bad desc at 229
232 begun wrong shape at 303
251 begun granted 600000
259 begun truncated at 303
260 begun bad stream bad desc at 229
261 begun bad stream bad code at 277
262 begun bad stream bad desc at 229
263 begun truncated at 303
264 begun bad stream bad desc at 229
265 begun wrong shape at 303
270 begun bad stream bad desc at 229
271 begun truncated at 303
272 begun bad stream bad desc at 229
273 begun wrong shape at 303
277 begun bad stream bad desc at 229
278 begun truncated at 303
279 begun wrong shape at 303
286 begun bad stream bad handle here
287 begun bad stream reset here
288 begun bad stream bad handle here
289 begun granted 600000
# dirty : all : ACK NORMAL LEASE 00000000000927C0 HOLDER :
0 not return here
1 truncated at 303
2 begun not return at 253
3 begun granted 600000
16 begun not return here
17 begun bad stream bad magic here
21 begun bad stream bad code here
22 begun bad stream block left at 38
23 begun bad kind here
24 begun granted 600000
38 begun bad stream bad code here
40 begun truncated at 303
41 begun bad stream bad utf at 60
42 begun bad stream bad utf here
60 begun granted 600000
68 begun bad stream bad desc at 39
69 begun bad stream negative length here
70 begun bad stream bad desc at 39
72 begun truncated at 303
74 begun bad stream bad utf here
79 begun bad stream bad desc at 39
80 begun truncated at 303
82 begun bad stream bad utf here
86 begun bad stream bad code here
87 begun truncated at 303
89 begun bad stream bad utf here
108 begun bad stream bad code here
111 begun granted 0
112 begun granted 1099511627776
114 begun granted 1095217260480
115 begun granted 4278790080
116 begun granted 16132032
117 begun granted 645312
118 begun granted 599871
119 begun bad stream bad code here
121 begun truncated at 303
123 begun bad stream bad utf here
140 begun granted 600000
148 begun bad stream bad desc at 120
149 begun bad stream negative length here
150 begun bad stream bad desc at 120
152 begun truncated at 303
154 begun bad stream bad utf here
158 begun bad stream bad code here
159 begun truncated at 303
161 begun bad stream bad utf here
163 begun bad stream bad desc at 120
164 begun truncated at 303
166 begun bad stream bad utf here
169 begun bad stream bad code here
170 begun truncated at 303
172 begun bad stream bad utf here
193 begun bad stream bad code here
198 begun truncated at 303
200 begun bad stream bad utf here
202 begun granted 600000
210 begun bad stream bad desc at 197
211 begun bad stream negative length here
212 begun bad stream bad desc at 197
213 begun bad stream bad code here
216 begun bad stream negative length here
217 begun truncated at 303
220 begun granted 600000
228 begun bad stream bad code here
230 begun truncated at 303
232 begun bad stream bad utf here
251 begun granted 600000
259 begun bad stream bad desc at 229
260 begun bad stream negative length here
261 begun bad stream bad desc at 229
263 begun truncated at 303
265 begun bad stream bad utf here
270 begun bad stream bad desc at 229
271 begun truncated at 303
273 begun bad stream bad utf here
277 begun bad stream bad desc at 229
278 begun truncated at 303
280 begun bad stream bad utf here
286 begun bad stream bad code here
289 begun granted 600000
# number : low : ACK LONG 000000000000000C :
0 nack
1 truncated at 46
2 begun not return at 15
3 begun answer 6/6/-32768 number 12
16 begun not return here
17 begun bad stream bad magic here
21 begun bad stream missing block here
22 begun bad stream bad code at 45
23 begun bad kind here
24 begun answer 16777222/6/-32768 number 12
25 begun answer 65542/6/-32768 number 12
26 begun answer 262/6/-32768 number 12
27 begun answer 7/6/-32768 number 12
28 begun answer 6/72057594037927942/-32768 number 12
29 begun answer 6/281474976710662/-32768 number 12
30 begun answer 6/1099511627782/-32768 number 12
31 begun answer 6/4294967302/-32768 number 12
32 begun answer 6/16777222/-32768 number 12
33 begun answer 6/65542/-32768 number 12
34 begun answer 6/262/-32768 number 12
35 begun answer 6/7/-32768 number 12
36 begun answer 6/6/-32512 number 12
37 begun answer 6/6/-32767 number 12
38 begun answer 6/6/-32768 number 72057594037927948
39 begun answer 6/6/-32768 number 281474976710668
40 begun answer 6/6/-32768 number 1099511627788
41 begun answer 6/6/-32768 number 4294967308
42 begun answer 6/6/-32768 number 16777228
43 begun answer 6/6/-32768 number 65548
44 begun answer 6/6/-32768 number 268
45 begun answer 6/6/-32768 number 13
# number : all : ACK LONG 000000000000000C :
0 not return here
1 truncated at 46
3 begun answer 6/6/-32768 number 12
16 begun not return here
17 begun bad stream bad magic here
21 begun bad stream bad code here
22 begun bad stream block left at 46
23 begun bad kind here
24 begun answer -16777210/6/-32768 number 12
25 begun answer 16711686/6/-32768 number 12
26 begun answer 65286/6/-32768 number 12
27 begun answer 249/6/-32768 number 12
28 begun answer 6/-72057594037927930/-32768 number 12
29 begun answer 6/71776119061217286/-32768 number 12
30 begun answer 6/280375465082886/-32768 number 12
31 begun answer 6/1095216660486/-32768 number 12
32 begun answer 6/4278190086/-32768 number 12
33 begun answer 6/16711686/-32768 number 12
34 begun answer 6/65286/-32768 number 12
35 begun answer 6/249/-32768 number 12
36 begun answer 6/6/32512 number 12
37 begun answer 6/6/-32513 number 12
38 begun answer 6/6/-32768 number -72057594037927924
39 begun answer 6/6/-32768 number 71776119061217292
40 begun answer 6/6/-32768 number 280375465082892
41 begun answer 6/6/-32768 number 1095216660492
42 begun answer 6/6/-32768 number 4278190092
43 begun answer 6/6/-32768 number 16711692
44 begun answer 6/6/-32768 number 65292
45 begun answer 6/6/-32768 number 243";

/// The bits of a byte that a word names.
fn bits_of(word: &str) -> u8 {
    match word {
        "low" => 0x01,
        _ => 0xFF,
    }
}

/// A change of one byte: its position, and the bits that are changed.
#[derive(Clone, Copy)]
struct Change {
    at: usize,
    bits: u8,
}

/// These bytes, with this change.
fn with_change(rt: &impl Abort, alloc: Global, server: &[u8], change: Change) -> ByteList {
    let mut bytes = ByteList::new(alloc);
    for (index, byte) in server.iter().enumerate() {
        let flips = if index == change.at { change.bits } else { 0 };
        put(rt, &mut bytes, &[*byte ^ flips]);
    }
    bytes
}

/// Appends the answer to a call where the byte at this position is changed. A fault at the position itself is one
/// `here`.
fn put_answered(rt: &impl Abort, alloc: Global, out: &mut ByteList, answered: &[u8], at: usize) {
    let place = format!(in alloc; " at {at}").expect(rt, "memory");
    match answered.strip_suffix(place.as_bytes()) {
        Some(fault) => {
            put(rt, out, fault);
            put(rt, out, b" here");
        }
        None => put(rt, out, answered),
    }
}

/// Returns the answer to a call where the server's bytes have this change.
fn text_of_change(
    rt: &impl Abort,
    alloc: Global,
    call: &str,
    server: &[u8],
    change: Change,
) -> ByteList {
    let sent = with_change(rt, alloc, server, change);
    let answered = text_of_talk(rt, alloc, call, sent.as_slice());
    let mut out = ByteList::new(alloc);
    put_answered(rt, alloc, &mut out, answered.as_slice(), change.at);
    out
}

/// Appends a position, and what is answered from it on.
fn put_run(rt: &impl Abort, alloc: Global, out: &mut ByteList, at: usize, answered: &[u8]) {
    let text = format!(in alloc; "\n{at} ").expect(rt, "memory");
    put(rt, out, text.as_bytes());
    put(rt, out, answered);
}

/// Returns the answers to a call where these bits are changed of one of the server's bytes, for each byte in turn.
fn text_of_changes(
    rt: &impl Abort,
    alloc: Global,
    call: &str,
    server: &[u8],
    bits: u8,
) -> ByteList {
    let mut out = ByteList::new(alloc);
    let mut last = ByteList::new(alloc);
    for at in 0..server.len() {
        let answered = text_of_change(rt, alloc, call, server, Change { at, bits });
        if answered.as_slice() != last.as_slice() {
            put_run(rt, alloc, &mut out, at, answered.as_slice());
            last = answered;
        }
    }
    out
}

#[test]
fn each_changed_byte_is_told_or_answered(rt: HostRuntime) {
    for row in CHANGES.split('#') {
        let (call, rest) = cut(row, ':');
        let (bits, rest) = cut(rest, ':');
        let (server, wanted) = cut(rest, ':');
        let server = wire_of(&rt, rt.alloc(), server);
        let out = text_of_changes(&rt, rt.alloc(), call, server.as_slice(), bits_of(bits));
        let found = out.as_slice();
        assert!(rt;
            found.strip_prefix(b"\n") == Some(wanted.as_bytes()),
            "{call} {bits}"
        );
    }
}
